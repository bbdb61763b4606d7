// Addresses: their octets, and a tag where there are two kinds.
ghost use Rattle.borsh_codec.specs.Types.Addresses.{ipv4, ipv6, ip, socket_v4, socket_v6, socket};
ghost use Rattle.borsh_codec.proofs.Laws.Types.{ipv4-lawful, ipv6-lawful, ip-lawful, socket_v4-lawful, socket_v6-lawful, socket-lawful};
ghost use Rattle.borsh_codec.proofs.Laws.Conditional.{always};

use super::types::BorshType;
use std::net::{IpAddr, Ipv4Addr, Ipv6Addr, SocketAddr, SocketAddrV4, SocketAddrV6};

impl BorshType for Ipv4Addr {
    ghost codec = { ipv4 };

    ghost lawful_if = { always ipv4-lawful };

    ghost premises = { tt };

    fn encodes_empty() -> bool {
        false
    }

    fn element_size() -> usize {
        size_of::<Ipv4Addr>()
    }
}

impl BorshType for Ipv6Addr {
    ghost codec = { ipv6 };

    ghost lawful_if = { always ipv6-lawful };

    ghost premises = { tt };

    fn encodes_empty() -> bool {
        false
    }

    fn element_size() -> usize {
        size_of::<Ipv6Addr>()
    }
}

impl BorshType for IpAddr {
    ghost codec = { ip };

    ghost lawful_if = { always ip-lawful };

    ghost premises = { tt };

    fn encodes_empty() -> bool {
        false
    }

    fn element_size() -> usize {
        size_of::<IpAddr>()
    }
}

impl BorshType for SocketAddrV4 {
    ghost codec = { socket_v4 };

    ghost lawful_if = { always socket_v4-lawful };

    ghost premises = { tt };

    fn encodes_empty() -> bool {
        false
    }

    fn element_size() -> usize {
        size_of::<SocketAddrV4>()
    }
}

impl BorshType for SocketAddrV6 {
    ghost codec = { socket_v6 };

    ghost lawful_if = { always socket_v6-lawful };

    ghost premises = { tt };

    fn encodes_empty() -> bool {
        false
    }

    fn element_size() -> usize {
        size_of::<SocketAddrV6>()
    }
}

impl BorshType for SocketAddr {
    ghost codec = { socket };

    ghost lawful_if = { always socket-lawful };

    ghost premises = { tt };

    fn encodes_empty() -> bool {
        false
    }

    fn element_size() -> usize {
        size_of::<SocketAddr>()
    }
}
