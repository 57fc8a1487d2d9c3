//! The tables of the database and their columns, after the schema `hardware_vtep` (vtep(5)), in this project's profile.
#![tactic(auto)]

mod derived;
mod lines;
pub mod named;
mod orders;
mod published;
mod rules;

pub use derived::{belongs, most, root, shape, words, written_by_sessions};
pub use lines::{column_name, column_rule, columns, table_name, table_rule, tables, unique_keys};
pub use published::get_schema;
pub use rules::{ColumnRule, Domain, Given, TableRule, Words};

/// The tables of vtep(5) that this profile has, in the order in which their rows are checked.
#[derive(Clone, Copy, Debug)]
pub enum Table {
    /// `Global`: one row, which names the switch.
    Global,
    /// `Physical_Switch`: one row, the gateway.
    PhysicalSwitch,
    /// `Physical_Port`: a port of the gateway.
    PhysicalPort,
    /// `Logical_Switch`: a network, which a VNI names in tunnels.
    LogicalSwitch,
    /// `Ucast_Macs_Local`: the stations behind the own ports.
    UcastMacsLocal,
    /// `Ucast_Macs_Remote`: the stations behind tunnels.
    UcastMacsRemote,
    /// `Mcast_Macs_Local`: the groups behind the own ports.
    McastMacsLocal,
    /// `Mcast_Macs_Remote`: the groups behind tunnels, and what takes unknown destinations.
    McastMacsRemote,
    /// `Physical_Locator_Set`: a set of ends of tunnels.
    PhysicalLocatorSet,
    /// `Physical_Locator`: an end of a tunnel.
    PhysicalLocator,
    /// `ACL`: a list of rules for frames.
    Acl,
    /// `ACL_entry`: one such rule.
    AclEntry,
}

/// The columns of all tables, table by table, by their names in vtep(5).
#[derive(Clone, Copy, Debug)]
pub enum Column {
    /// `switches` of `Global`.
    GlobalSwitches,
    /// `name` of `Physical_Switch`.
    SwitchName,
    /// `description` of `Physical_Switch`.
    SwitchDescription,
    /// `ports` of `Physical_Switch`.
    SwitchPorts,
    /// `tunnel_ips` of `Physical_Switch`.
    SwitchTunnelIps,
    /// `name` of `Physical_Port`.
    PortName,
    /// `description` of `Physical_Port`.
    PortDescription,
    /// `vlan_bindings` of `Physical_Port`.
    PortVlanBindings,
    /// `acl_bindings` of `Physical_Port`.
    PortAclBindings,
    /// `name` of `Logical_Switch`.
    LogicalName,
    /// `description` of `Logical_Switch`.
    LogicalDescription,
    /// `tunnel_key` of `Logical_Switch`.
    LogicalTunnelKey,
    /// `replication_mode` of `Logical_Switch`.
    LogicalReplicationMode,
    /// `MAC` of `Ucast_Macs_Local`.
    UcastLocalMac,
    /// `logical_switch` of `Ucast_Macs_Local`.
    UcastLocalLogicalSwitch,
    /// `locator` of `Ucast_Macs_Local`.
    UcastLocalLocator,
    /// `ipaddr` of `Ucast_Macs_Local`.
    UcastLocalIpaddr,
    /// `MAC` of `Ucast_Macs_Remote`.
    UcastRemoteMac,
    /// `logical_switch` of `Ucast_Macs_Remote`.
    UcastRemoteLogicalSwitch,
    /// `locator` of `Ucast_Macs_Remote`.
    UcastRemoteLocator,
    /// `ipaddr` of `Ucast_Macs_Remote`.
    UcastRemoteIpaddr,
    /// `MAC` of `Mcast_Macs_Local`.
    McastLocalMac,
    /// `logical_switch` of `Mcast_Macs_Local`.
    McastLocalLogicalSwitch,
    /// `locator_set` of `Mcast_Macs_Local`.
    McastLocalLocatorSet,
    /// `ipaddr` of `Mcast_Macs_Local`.
    McastLocalIpaddr,
    /// `MAC` of `Mcast_Macs_Remote`.
    McastRemoteMac,
    /// `logical_switch` of `Mcast_Macs_Remote`.
    McastRemoteLogicalSwitch,
    /// `locator_set` of `Mcast_Macs_Remote`.
    McastRemoteLocatorSet,
    /// `ipaddr` of `Mcast_Macs_Remote`.
    McastRemoteIpaddr,
    /// `locators` of `Physical_Locator_Set`.
    SetLocators,
    /// `encapsulation_type` of `Physical_Locator`.
    LocatorEncapsulationType,
    /// `dst_ip` of `Physical_Locator`.
    LocatorDstIp,
    /// `acl_name` of `ACL`.
    AclName,
    /// `acl_entries` of `ACL`.
    AclEntries,
    /// `sequence` of `ACL_entry`.
    EntrySequence,
    /// `direction` of `ACL_entry`.
    EntryDirection,
    /// `action` of `ACL_entry`.
    EntryAction,
    /// `source_mac` of `ACL_entry`.
    EntrySourceMac,
    /// `dest_mac` of `ACL_entry`.
    EntryDestMac,
    /// `ethertype` of `ACL_entry`.
    EntryEthertype,
    /// `source_ip` of `ACL_entry`.
    EntrySourceIp,
    /// `source_mask` of `ACL_entry`.
    EntrySourceMask,
    /// `dest_ip` of `ACL_entry`.
    EntryDestIp,
    /// `dest_mask` of `ACL_entry`.
    EntryDestMask,
    /// `protocol` of `ACL_entry`.
    EntryProtocol,
    /// `icmp_type` of `ACL_entry`.
    EntryIcmpType,
    /// `icmp_code` of `ACL_entry`.
    EntryIcmpCode,
    /// `source_port_min` of `ACL_entry`.
    EntrySourcePortMin,
    /// `source_port_max` of `ACL_entry`.
    EntrySourcePortMax,
    /// `dest_port_min` of `ACL_entry`.
    EntryDestPortMin,
    /// `dest_port_max` of `ACL_entry`.
    EntryDestPortMax,
    /// `tcp_flags` of `ACL_entry`.
    EntryTcpFlags,
    /// `tcp_flags_mask` of `ACL_entry`.
    EntryTcpFlagsMask,
}
