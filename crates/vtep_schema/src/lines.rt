//! The tables and columns of the database: one line each.

ghost use Rattle.std.specs.Prelude.{◌≡◌, [], ◌∷◌, map};
ghost use Rattle.vtep_schema.specs.Tables.{set, plain, opt, map_to, whole, words_of, tables, columns_of, column_rule, column_name, table_rule, table_name, unique_keys};

use crate::rules::{ColumnRule, Domain, Given, TableRule, Words};
use crate::{Column, Table};

/// A line of the table of columns.
#[derive(Clone, Copy)]
struct ColumnLine {
    name: &'static str,
    rule: ColumnRule,
}

/// A line of the table of tables.
#[derive(Clone, Copy)]
struct TableLine {
    name: &'static str,
    rule: TableRule,
    unique: &'static [&'static [Column]],
    columns: &'static [Column],
}

fn set(least: u32, most: u32, name: &'static str, key: Domain, given: Given) -> ColumnLine
    ensures name { result.name.now ≡ name.now }
    ensures rule { result.rule ≡ (set least most name.now key given).rule }
{
    ColumnLine {
        name,
        rule: ColumnRule {
            key,
            value: None,
            least,
            most,
            given,
        },
    }
}

/// Exactly one.
fn plain(name: &'static str, key: Domain, given: Given) -> ColumnLine
    ensures name { result.name.now ≡ name.now }
    ensures rule { result.rule ≡ (plain name.now key given).rule }
{
    set(1, 1, name, key, given)
}

/// None or one.
fn opt(name: &'static str, key: Domain) -> ColumnLine
    ensures name { result.name.now ≡ name.now }
    ensures rule { result.rule ≡ (opt name.now key).rule }
{
    set(0, 1, name, key, Given::Optional)
}

fn map_to(name: &'static str, key: Domain, value: Domain) -> ColumnLine
    ensures name { result.name.now ≡ name.now }
    ensures rule { result.rule ≡ (map_to name.now key value).rule }
{
    ColumnLine {
        name,
        rule: ColumnRule {
            key,
            value: Some(value),
            least: 0,
            most: 4096,
            given: Given::Optional,
        },
    }
}

fn whole(least: u32, most: u32) -> Domain
    ensures { result ≡ whole least most }
{
    Domain::Whole { least, most }
}

fn table_line(table: Table) -> TableLine
    ensures name { result.name.now ≡ table_name table }
    ensures rule { result.rule ≡ table_rule table }
    ensures unique { map (λ k. k.now) result.unique.now ≡ unique_keys table }
    ensures columns { result.columns.now ≡ columns_of table }
{
    match table {
        Table::Global => TableLine {
            name: "Global",
            rule: TableRule {
                root: true,
                most: 1,
                open_to_sessions: false,
            },
            unique: &[],
            columns: &[Column::GlobalSwitches],
        },
        Table::PhysicalSwitch => TableLine {
            name: "Physical_Switch",
            rule: TableRule {
                root: true,
                most: 1,
                open_to_sessions: false,
            },
            unique: &[&[Column::SwitchName]],
            columns: &[
                Column::SwitchName,
                Column::SwitchDescription,
                Column::SwitchPorts,
                Column::SwitchTunnelIps,
            ],
        },
        Table::PhysicalPort => TableLine {
            name: "Physical_Port",
            rule: TableRule {
                root: false,
                most: 64,
                open_to_sessions: false,
            },
            unique: &[&[Column::PortName]],
            columns: &[
                Column::PortName,
                Column::PortDescription,
                Column::PortVlanBindings,
                Column::PortAclBindings,
            ],
        },
        Table::LogicalSwitch => TableLine {
            name: "Logical_Switch",
            rule: TableRule {
                root: true,
                most: 1_024,
                open_to_sessions: true,
            },
            unique: &[&[Column::LogicalName], &[Column::LogicalTunnelKey]],
            columns: &[
                Column::LogicalName,
                Column::LogicalDescription,
                Column::LogicalTunnelKey,
                Column::LogicalReplicationMode,
            ],
        },
        Table::UcastMacsLocal => TableLine {
            name: "Ucast_Macs_Local",
            rule: TableRule {
                root: true,
                most: 32_768,
                open_to_sessions: false,
            },
            unique: &[&[Column::UcastLocalLogicalSwitch, Column::UcastLocalMac]],
            columns: &[
                Column::UcastLocalMac,
                Column::UcastLocalLogicalSwitch,
                Column::UcastLocalLocator,
                Column::UcastLocalIpaddr,
            ],
        },
        Table::UcastMacsRemote => TableLine {
            name: "Ucast_Macs_Remote",
            rule: TableRule {
                root: true,
                most: 32_768,
                open_to_sessions: true,
            },
            unique: &[&[Column::UcastRemoteLogicalSwitch, Column::UcastRemoteMac]],
            columns: &[
                Column::UcastRemoteMac,
                Column::UcastRemoteLogicalSwitch,
                Column::UcastRemoteLocator,
                Column::UcastRemoteIpaddr,
            ],
        },
        Table::McastMacsLocal => TableLine {
            name: "Mcast_Macs_Local",
            rule: TableRule {
                root: true,
                most: 32_768,
                open_to_sessions: false,
            },
            unique: &[&[Column::McastLocalLogicalSwitch, Column::McastLocalMac]],
            columns: &[
                Column::McastLocalMac,
                Column::McastLocalLogicalSwitch,
                Column::McastLocalLocatorSet,
                Column::McastLocalIpaddr,
            ],
        },
        Table::McastMacsRemote => TableLine {
            name: "Mcast_Macs_Remote",
            rule: TableRule {
                root: true,
                most: 32_768,
                open_to_sessions: true,
            },
            unique: &[&[Column::McastRemoteLogicalSwitch, Column::McastRemoteMac]],
            columns: &[
                Column::McastRemoteMac,
                Column::McastRemoteLogicalSwitch,
                Column::McastRemoteLocatorSet,
                Column::McastRemoteIpaddr,
            ],
        },
        Table::PhysicalLocatorSet => TableLine {
            name: "Physical_Locator_Set",
            rule: TableRule {
                root: false,
                most: 32_768,
                open_to_sessions: true,
            },
            unique: &[],
            columns: &[Column::SetLocators],
        },
        Table::PhysicalLocator => TableLine {
            name: "Physical_Locator",
            rule: TableRule {
                root: false,
                most: 32_768,
                open_to_sessions: true,
            },
            unique: &[&[Column::LocatorEncapsulationType, Column::LocatorDstIp]],
            columns: &[Column::LocatorEncapsulationType, Column::LocatorDstIp],
        },
        Table::Acl => TableLine {
            name: "ACL",
            rule: TableRule {
                root: false,
                most: 256,
                open_to_sessions: true,
            },
            unique: &[&[Column::AclName]],
            columns: &[Column::AclName, Column::AclEntries],
        },
        Table::AclEntry => TableLine {
            name: "ACL_entry",
            rule: TableRule {
                root: false,
                most: 32_768,
                open_to_sessions: true,
            },
            unique: &[],
            columns: &[
                Column::EntrySequence,
                Column::EntryDirection,
                Column::EntryAction,
                Column::EntrySourceMac,
                Column::EntryDestMac,
                Column::EntryEthertype,
                Column::EntrySourceIp,
                Column::EntrySourceMask,
                Column::EntryDestIp,
                Column::EntryDestMask,
                Column::EntryProtocol,
                Column::EntryIcmpType,
                Column::EntryIcmpCode,
                Column::EntrySourcePortMin,
                Column::EntrySourcePortMax,
                Column::EntryDestPortMin,
                Column::EntryDestPortMax,
                Column::EntryTcpFlags,
                Column::EntryTcpFlagsMask,
            ],
        },
    }
}

fn column_line(column: Column) -> ColumnLine
    ensures name { result.name.now ≡ column_name column }
    ensures rule { result.rule ≡ column_rule column }
{
    match column {
        Column::GlobalSwitches => opt("switches", Domain::Row(Table::PhysicalSwitch)),
        Column::SwitchName => plain("name", Domain::Text, Given::Optional),
        Column::SwitchDescription => plain("description", Domain::Text, Given::Optional),
        Column::SwitchPorts => set(
            0,
            64,
            "ports",
            Domain::Row(Table::PhysicalPort),
            Given::Optional,
        ),
        Column::SwitchTunnelIps => opt("tunnel_ips", Domain::Ipv4),
        Column::PortName => plain("name", Domain::Text, Given::Optional),
        Column::PortDescription => plain("description", Domain::Text, Given::Optional),
        Column::PortVlanBindings => map_to(
            "vlan_bindings",
            whole(0, 4095),
            Domain::Row(Table::LogicalSwitch),
        ),
        Column::PortAclBindings => map_to("acl_bindings", whole(0, 4095), Domain::Row(Table::Acl)),
        Column::LogicalName => plain("name", Domain::Text, Given::Optional),
        Column::LogicalDescription => plain("description", Domain::Text, Given::Optional),
        Column::LogicalTunnelKey => opt("tunnel_key", whole(0, 16777215)),
        Column::LogicalReplicationMode => opt(
            "replication_mode",
            Domain::Word(Words::ReplicationModes),
        ),
        Column::UcastLocalMac => plain("MAC", Domain::SingleMac, Given::Required),
        Column::UcastLocalLogicalSwitch => plain(
            "logical_switch",
            Domain::Row(Table::LogicalSwitch),
            Given::Required,
        ),
        Column::UcastLocalLocator => plain(
            "locator",
            Domain::Row(Table::PhysicalLocator),
            Given::Required,
        ),
        Column::UcastLocalIpaddr => plain("ipaddr", Domain::Text, Given::Optional),
        Column::UcastRemoteMac => plain("MAC", Domain::SingleMac, Given::Required),
        Column::UcastRemoteLogicalSwitch => plain(
            "logical_switch",
            Domain::Row(Table::LogicalSwitch),
            Given::Required,
        ),
        Column::UcastRemoteLocator => plain(
            "locator",
            Domain::Row(Table::PhysicalLocator),
            Given::Required,
        ),
        Column::UcastRemoteIpaddr => plain("ipaddr", Domain::Text, Given::Optional),
        Column::McastLocalMac => plain("MAC", Domain::GroupMac, Given::Required),
        Column::McastLocalLogicalSwitch => plain(
            "logical_switch",
            Domain::Row(Table::LogicalSwitch),
            Given::Required,
        ),
        Column::McastLocalLocatorSet => plain(
            "locator_set",
            Domain::Row(Table::PhysicalLocatorSet),
            Given::Required,
        ),
        Column::McastLocalIpaddr => plain("ipaddr", Domain::Text, Given::Optional),
        Column::McastRemoteMac => plain("MAC", Domain::GroupMac, Given::Required),
        Column::McastRemoteLogicalSwitch => plain(
            "logical_switch",
            Domain::Row(Table::LogicalSwitch),
            Given::Required,
        ),
        Column::McastRemoteLocatorSet => plain(
            "locator_set",
            Domain::Row(Table::PhysicalLocatorSet),
            Given::Required,
        ),
        Column::McastRemoteIpaddr => plain("ipaddr", Domain::Text, Given::Optional),
        Column::SetLocators => set(
            1,
            64,
            "locators",
            Domain::Row(Table::PhysicalLocator),
            Given::Fixed,
        ),
        Column::LocatorEncapsulationType => plain(
            "encapsulation_type",
            Domain::Word(Words::Encapsulations),
            Given::Fixed,
        ),
        Column::LocatorDstIp => plain("dst_ip", Domain::Ipv4, Given::Fixed),
        Column::AclName => plain("acl_name", Domain::Text, Given::Optional),
        Column::AclEntries => set(
            0,
            64,
            "acl_entries",
            Domain::Row(Table::AclEntry),
            Given::Optional,
        ),
        Column::EntrySequence => plain("sequence", whole(0, 4294967295), Given::Optional),
        Column::EntryDirection => plain(
            "direction",
            Domain::Word(Words::Directions),
            Given::Required,
        ),
        Column::EntryAction => plain("action", Domain::Word(Words::Actions), Given::Required),
        Column::EntrySourceMac => opt("source_mac", Domain::Mac),
        Column::EntryDestMac => opt("dest_mac", Domain::Mac),
        Column::EntryEthertype => opt("ethertype", Domain::Ethertype),
        Column::EntrySourceIp => opt("source_ip", Domain::Ipv4),
        Column::EntrySourceMask => opt("source_mask", Domain::Ipv4),
        Column::EntryDestIp => opt("dest_ip", Domain::Ipv4),
        Column::EntryDestMask => opt("dest_mask", Domain::Ipv4),
        Column::EntryProtocol => opt("protocol", whole(0, 255)),
        Column::EntryIcmpType => opt("icmp_type", whole(0, 255)),
        Column::EntryIcmpCode => opt("icmp_code", whole(0, 255)),
        Column::EntrySourcePortMin => opt("source_port_min", whole(0, 65535)),
        Column::EntrySourcePortMax => opt("source_port_max", whole(0, 65535)),
        Column::EntryDestPortMin => opt("dest_port_min", whole(0, 65535)),
        Column::EntryDestPortMax => opt("dest_port_max", whole(0, 65535)),
        Column::EntryTcpFlags => opt("tcp_flags", whole(0, 511)),
        Column::EntryTcpFlagsMask => opt("tcp_flags_mask", whole(0, 511)),
    }
}

/// The tables, in the order in which their rows are checked.
pub fn tables() -> &'static [Table]
    ensures { result.now ≡ tables }
{
    &[
        Table::Global,
        Table::PhysicalSwitch,
        Table::PhysicalPort,
        Table::LogicalSwitch,
        Table::UcastMacsLocal,
        Table::UcastMacsRemote,
        Table::McastMacsLocal,
        Table::McastMacsRemote,
        Table::PhysicalLocatorSet,
        Table::PhysicalLocator,
        Table::Acl,
        Table::AclEntry,
    ]
}

/// The name of a table, as in the schema.
pub fn table_name(table: Table) -> &'static str
    ensures { result.now ≡ table_name table }
{
    table_line(table).name
}

/// What a table is.
pub fn table_rule(table: Table) -> TableRule
    ensures { result ≡ table_rule table }
{
    table_line(table).rule
}

/// The columns of a table, without `_uuid`.
pub fn columns(table: Table) -> &'static [Column]
    ensures { result.now ≡ columns_of table }
{
    table_line(table).columns
}

/// Lists of columns whose values no two rows of the table share. A key with a column that holds nothing ties none.
pub fn unique_keys(table: Table) -> &'static [&'static [Column]]
    ensures { map (λ k. k.now) result.now ≡ unique_keys table }
{
    table_line(table).unique
}

/// The name of a column, as in the schema.
pub fn column_name(column: Column) -> &'static str
    ensures { result.now ≡ column_name column }
{
    column_line(column).name
}

/// What a column holds.
pub fn column_rule(column: Column) -> ColumnRule
    ensures { result ≡ column_rule column }
{
    column_line(column).rule
}
