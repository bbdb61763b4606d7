// Addresses: their octets, and a tag where there are two kinds.
ghost use Rattle.borsh_codec.specs.Types.Addresses.{socket_v4_view};

use super::deserialize::BorshDeserialize;
use super::parts::{FromParts, read_parts};
use super::raw_bytes::{read_octets, read_tag};
use super::refusals::invalid_data;
use borsh_io::{Read, Result};
use std::alloc::Global;
use std::net::{IpAddr, Ipv4Addr, Ipv6Addr, SocketAddr, SocketAddrV4, SocketAddrV6};

impl BorshDeserialize for Ipv4Addr {
    #[inline(always)]
    fn deserialize_reader<R: Read>(_alloc: Global, reader: &mut R) -> Result<Ipv4Addr> {
        Ok(Ipv4Addr::from_octets(read_octets(reader)?))
    }

    #[inline]
    fn width() -> usize {
        4
    }
}

impl BorshDeserialize for Ipv6Addr {
    #[inline(always)]
    fn deserialize_reader<R: Read>(_alloc: Global, reader: &mut R) -> Result<Ipv6Addr> {
        Ok(Ipv6Addr::from_octets(read_octets(reader)?))
    }

    #[inline]
    fn width() -> usize {
        16
    }
}

impl BorshDeserialize for IpAddr {
    #[inline(always)]
    fn deserialize_reader<R: Read>(alloc: Global, reader: &mut R) -> Result<IpAddr> {
        match read_tag(reader)? {
            0 => Ok(IpAddr::V4(Ipv4Addr::deserialize_reader(alloc, reader)?)),
            1 => Ok(IpAddr::V6(Ipv6Addr::deserialize_reader(alloc, reader)?)),
            tag => Err(invalid_data(format!(in alloc; "Invalid IpAddr variant: {tag}"))),
        }
    }
}

impl FromParts for SocketAddrV4 {
    type Parts = (Ipv4Addr, u16);

    ghost view = { socket_v4_view };

    #[inline]
    fn from_parts((ip, port): (Ipv4Addr, u16)) -> SocketAddrV4 {
        SocketAddrV4::new(ip, port)
    }
}

impl BorshDeserialize for SocketAddrV4 {
    #[inline]
    fn deserialize_reader<R: Read>(alloc: Global, reader: &mut R) -> Result<SocketAddrV4> {
        read_parts(alloc, reader)
    }
}

impl BorshDeserialize for SocketAddrV6 {
    /// The flow and the scope are no part of the encoding: they are 0.
    #[inline]
    fn deserialize_reader<R: Read>(alloc: Global, reader: &mut R) -> Result<SocketAddrV6> {
        let (ip, port) = <(Ipv6Addr, u16)>::deserialize_reader(alloc, reader)?;
        Ok(SocketAddrV6::new(ip, port, 0, 0))
    }
}

impl BorshDeserialize for SocketAddr {
    /// The flow and the scope are no part of the encoding: they are 0.
    #[inline]
    fn deserialize_reader<R: Read>(alloc: Global, reader: &mut R) -> Result<SocketAddr> {
        match read_tag(reader)? {
            0 => Ok(SocketAddr::V4(SocketAddrV4::deserialize_reader(alloc, reader)?)),
            1 => Ok(SocketAddr::V6(SocketAddrV6::deserialize_reader(alloc, reader)?)),
            tag => Err(invalid_data(format!(in alloc; "Invalid SocketAddr variant: {tag}"))),
        }
    }
}
