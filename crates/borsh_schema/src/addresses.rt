// Addresses: their octets, and a tag where there are two kinds.
ghost use Rattle.std.specs.Prelude.{codes, refl};
ghost use Rattle.std.specs.Net.Addr.{ipv4_octets, ipv6_octets};
ghost use Rattle.borsh_codec.specs.Types.Addresses.{ip, ip_view};
ghost use Rattle.borsh_walks.specs.Container.{first_variant, later_variant};
ghost use Rattle.borsh_definitions.specs.Addresses.{ipv4_definitions, ipv6_definitions, ip_address_definitions};
ghost use Rattle.borsh_definitions.proofs.Laws.Members.{describes_contramap, describes_choice, describes_number, describes_parts, describes_row, all_one, choice_more, choice_none};
ghost use Rattle.borsh_definitions.proofs.Laws.Quoted.{struct_described};

use super::definitions::{DefinitionMap, SchemaResult};
use super::fields::{FieldTypes, add_named};
use super::parts::declared;
use super::schema::BorshSchema;
use super::variants::add_enum;
use borsh_enums::{Case, Fork};
use borsh_walks::Declaration;
use std::alloc::Global;
use std::net::{IpAddr, Ipv4Addr, Ipv6Addr};

impl BorshSchema for Ipv4Addr {
    ghost name = { codes "Ipv4Addr" };

    ghost parts = { ipv4_definitions };

    ghost described = { struct_described (λ a. (ipv4_octets a, tt))
        ⟦<([u8; 4], ()) as FieldTypes>⟧.described refl };

    fn declaration(alloc: Global) -> SchemaResult<Declaration> {
        declared(alloc, "Ipv4Addr")
    }

    fn add_definitions_recursively(alloc: Global, map: &mut DefinitionMap) -> SchemaResult<()> {
        add_named::<([u8; 4], ())>(alloc, "Ipv4Addr", &["octets"], map)
    }

    ghost describes = { Self.described.describes };
}

impl BorshSchema for Ipv6Addr {
    ghost name = { codes "Ipv6Addr" };

    ghost parts = { ipv6_definitions };

    ghost described = { struct_described (λ a. (ipv6_octets a, tt))
        ⟦<([u8; 16], ()) as FieldTypes>⟧.described refl };

    fn declaration(alloc: Global) -> SchemaResult<Declaration> {
        declared(alloc, "Ipv6Addr")
    }

    fn add_definitions_recursively(alloc: Global, map: &mut DefinitionMap) -> SchemaResult<()> {
        add_named::<([u8; 16], ())>(alloc, "Ipv6Addr", &["octets"], map)
    }

    ghost describes = { Self.described.describes };
}

impl BorshSchema for IpAddr {
    ghost name = { codes "IpAddr" };

    ghost parts = { ip_address_definitions };

    ghost described = { record {
      codec = ip;
      describes = λ C h. describes_contramap ip_view
          (describes_choice h.0
          (choice_more first_variant refl
          (describes_parts h.1.0.0
          (all_one
          (describes_contramap ipv4_octets
          (describes_parts h.1.0.1.0.0
          (all_one (describes_row 4 h.1.0.1.0.1.0.0 (describes_number 1 h.1.0.1.0.1.0.1.0.0)))))))
          (choice_more (later_variant first_variant) refl
          (describes_parts h.1.1.0
          (all_one
          (describes_contramap ipv6_octets
          (describes_parts h.1.1.1.0.0
          (all_one (describes_row 16 h.1.1.1.0.1.0.0 (describes_number 1 h.1.1.1.0.1.0.1.0.0)))))))
          choice_none)));
    } };

    fn declaration(alloc: Global) -> SchemaResult<Declaration> {
        declared(alloc, "IpAddr")
    }

    fn add_definitions_recursively(alloc: Global, map: &mut DefinitionMap) -> SchemaResult<()> {
        add_enum::<Fork<Case<0, (Ipv4Addr, ())>, Case<1, (Ipv6Addr, ())>>>(
            alloc,
            "IpAddr",
            &[("V4", &[]), ("V6", &[])],
            map,
        )
    }

    ghost describes = { Self.described.describes };
}
