// Addresses: their octets, and a tag where there are two kinds.
use super::lengths::{joined_length, tagged_length};
use super::parts::{write_tagged, write_two};
use super::puts::{put_tagged, put_two};
use super::serialize::BorshSerialize;
use borsh_io::{Result, Write};
use std::alloc::Global;
use std::net::{IpAddr, Ipv4Addr, Ipv6Addr, SocketAddr, SocketAddrV4, SocketAddrV6};

impl BorshSerialize for Ipv4Addr {
    #[inline]
    fn serialize<W: Write>(&self, alloc: Global, writer: &mut W) -> Result<()> {
        self.octets().serialize(alloc, writer)
    }

    #[inline]
    fn put(&self, room: &mut [u8]) -> Option<usize> {
        self.octets().put(room)
    }

    #[inline]
    fn encoded_length(&self) -> Option<u32> {
        self.octets().encoded_length()
    }
}

impl BorshSerialize for Ipv6Addr {
    #[inline]
    fn serialize<W: Write>(&self, alloc: Global, writer: &mut W) -> Result<()> {
        self.octets().serialize(alloc, writer)
    }

    #[inline]
    fn put(&self, room: &mut [u8]) -> Option<usize> {
        self.octets().put(room)
    }

    #[inline]
    fn encoded_length(&self) -> Option<u32> {
        self.octets().encoded_length()
    }
}

impl BorshSerialize for IpAddr {
    #[inline]
    fn serialize<W: Write>(&self, alloc: Global, writer: &mut W) -> Result<()> {
        match self {
            IpAddr::V4(address) => write_tagged(0, address, alloc, writer),
            IpAddr::V6(address) => write_tagged(1, address, alloc, writer),
        }
    }

    #[inline]
    fn put(&self, room: &mut [u8]) -> Option<usize> {
        match self {
            IpAddr::V4(address) => put_tagged(0, address, room),
            IpAddr::V6(address) => put_tagged(1, address, room),
        }
    }

    #[inline]
    fn encoded_length(&self) -> Option<u32> {
        match self {
            IpAddr::V4(address) => tagged_length(0, address),
            IpAddr::V6(address) => tagged_length(1, address),
        }
    }
}

impl BorshSerialize for SocketAddrV4 {
    #[inline]
    fn serialize<W: Write>(&self, alloc: Global, writer: &mut W) -> Result<()> {
        write_two(self.ip(), &self.port(), alloc, writer)
    }

    #[inline]
    fn put(&self, room: &mut [u8]) -> Option<usize> {
        put_two(self.ip(), &self.port(), room)
    }

    #[inline]
    fn encoded_length(&self) -> Option<u32> {
        joined_length(self.ip().encoded_length(), self.port().encoded_length())
    }
}

// The flow and the scope are not written.
impl BorshSerialize for SocketAddrV6 {
    #[inline]
    fn serialize<W: Write>(&self, alloc: Global, writer: &mut W) -> Result<()> {
        write_two(self.ip(), &self.port(), alloc, writer)
    }

    #[inline]
    fn put(&self, room: &mut [u8]) -> Option<usize> {
        put_two(self.ip(), &self.port(), room)
    }

    #[inline]
    fn encoded_length(&self) -> Option<u32> {
        joined_length(self.ip().encoded_length(), self.port().encoded_length())
    }
}

impl BorshSerialize for SocketAddr {
    #[inline]
    fn serialize<W: Write>(&self, alloc: Global, writer: &mut W) -> Result<()> {
        match self {
            SocketAddr::V4(address) => write_tagged(0, address, alloc, writer),
            SocketAddr::V6(address) => write_tagged(1, address, alloc, writer),
        }
    }

    #[inline]
    fn put(&self, room: &mut [u8]) -> Option<usize> {
        match self {
            SocketAddr::V4(address) => put_tagged(0, address, room),
            SocketAddr::V6(address) => put_tagged(1, address, room),
        }
    }

    #[inline]
    fn encoded_length(&self) -> Option<u32> {
        match self {
            SocketAddr::V4(address) => tagged_length(0, address),
            SocketAddr::V6(address) => tagged_length(1, address),
        }
    }
}
