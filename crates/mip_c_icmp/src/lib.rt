//! ICMPv6 for C: the messages of Mobile IPv6 and neighbour messages. Each call has the clauses of the library's own, and asks for
//! nothing that C could break.
#![tactic(auto)]

mod icmp_fields;
mod icmps;
mod neighbour_fields;
mod neighbours;
mod prefix_fields;
