//! Hosts that may connect.
ghost use Rattle.std.specs.Prelude.{◌≡◌, ◌≤◌, option_map, map};
ghost use Rattle.std.specs.List.{list_any};
ghost use Rattle.std.specs.Net.Addr.{ipv4_bits};
ghost use Rattle.pg_limits.specs.Hosts.{is_of, is_allowed};

use std::fmt;
use std::marker::Model;
use std::net::Ipv4Addr;

/// Hosts whose addresses begin alike: the first `bits` bits of an address, 0 to 32.
#[derive(Clone, Copy, PartialEq, Eq)]
pub struct Network {
    address: u32,
    bits: u8,
}

impl Model for Network {
    ghost use Rattle.std.specs.Prelude.{◌≤◌};
    ghost use Rattle.pg_limits.specs.Hosts.{Net};

    ghost Value = { Net };

    ghost view = { λ n. record { address = n.address; bits = n.bits } };

    ghost inverse = { λ n. record { address = n.address; bits = n.bits } };

    ghost invariant = { λ n. n.bits ≤ 32 };
}

impl Network {
    /// The hosts whose first `bits` bits are those of this address. It asks for at most 32 bits.
    pub fn new(address: Ipv4Addr, bits: u8) -> Network
        requires { bits ≤ 32 }
        ensures { result ≡ record { address = ipv4_bits address; bits = bits } }
    {
        Network {
            address: address.to_bits(),
            bits,
        }
    }

    /// Whether a host is one of them.
    pub fn has(&self, host: Ipv4Addr) -> bool
        ensures { result ≡ is_of (ipv4_bits host) self.now }
    {
        let least = 1u64 << (32 - self.bits);
        u64::from(host.to_bits()) / least == u64::from(self.address) / least
    }
}

impl fmt::Display for Network {
    fn fmt<W: fmt::Write>(&self, f: &mut fmt::Formatter<W>) -> fmt::Result {
        let address = Ipv4Addr::from_bits(self.address);
        write!(f, "{address}/{}", self.bits)
    }
}

/// The hosts that may connect: those of some networks, or every host.
#[derive(Drop)]
pub struct Allow {
    /// The networks; `None` where every host may connect.
    pub networks: Option<Vec<Network>>,
}

/// Whether a host is one of some networks.
fn any_has(networks: &[Network], host: Ipv4Addr) -> bool
    ensures { result ≡ list_any (λ net. is_of (ipv4_bits host) net) networks.now }
{
    networks.iter().any(|network| network.has(host))
}

impl Allow {
    /// Whether a host may connect.
    pub fn allows(&self, host: Ipv4Addr) -> bool
        ensures { result ≡ is_allowed (ipv4_bits host) (option_map (λ v. v.items) self.now.networks) }
    {
        match &self.networks {
            None => true,
            Some(networks) => any_has(networks, host),
        }
    }
}
