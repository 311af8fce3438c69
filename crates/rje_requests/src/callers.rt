//! Whose calls are taken.
ghost use Rattle.std.specs.Prelude.{◌≡◌, ◌↔◌, IfSome, IsSome, IsTrue};
ghost use Rattle.std.specs.Net.Grammar.{IsIpv4Text};
ghost use Rattle.rje_requests.specs.Callers.{AreAddresses, IsAddress, IsAmong, IsLetIn, are_several};
ghost use Rattle.rje_requests.specs.declared.callers.Callers.TheVariants.{These};

use std::net::{Ipv4Addr, SocketAddr};

/// Whose calls a command takes that listens.
#[derive(Clone, Copy, Debug, PartialEq, Eq)]
pub enum Callers<'a> {
    /// Anyone's.
    Anyone,
    /// Those from these addresses alone, whatever their ports: each four numbers with dots between, and commas between two of them.
    These(&'a str),
}

impl<'a> Callers<'a> {
    /// The callers of a list of addresses; none where one of them isn't one.
    pub fn of(addresses: &'a str) -> Option<Callers<'a>>
        ensures some { IsSome result ↔ AreAddresses addresses.entry.now }
        ensures these { IfSome result (λ callers. callers ≡ These addresses.entry) }
    {
        match are_addresses(addresses) {
            true => Some(Callers::These(addresses)),
            false => None,
        }
    }

    /// Whether they are of more than one address that is named.
    pub fn are_several(self) -> bool
        ensures { result ≡ are_several self.entry }
    {
        match self {
            Callers::Anyone => false,
            Callers::These(addresses) => addresses.as_bytes().contains(&b','),
        }
    }

    /// Whether a call from this address is taken.
    pub fn take(self, caller: SocketAddr) -> bool
        ensures taken { IsTrue result ↔ IsLetIn self.entry caller }
    {
        match (self, caller) {
            (Callers::Anyone, _) => true,
            (Callers::These(addresses), SocketAddr::V4(caller)) => {
                is_among(addresses, *caller.ip())
            }
            (Callers::These(_), SocketAddr::V6(_)) => false,
        }
    }
}

/// Whether each part between the commas is an address of four numbers.
fn are_addresses(text: &str) -> bool
    ensures { IsTrue result ↔ AreAddresses text.now }
{
    text.split(',').all(is_address)
}

fn is_address(text: &str) -> bool
    ensures { IsTrue result ↔ IsAddress text.now }
{
    text.parse::<Ipv4Addr>().is_ok()
}

/// Whether one of the parts between the commas is this address.
fn is_among(text: &str, address: Ipv4Addr) -> bool
    ensures { IsTrue result ↔ IsAmong text.now address }
{
    text.split(',').any(|part| is_text_of(part, address))
}

/// Whether the text is this address.
fn is_text_of(text: &str, address: Ipv4Addr) -> bool
    ensures { IsTrue result ↔ IsIpv4Text text.now address }
{
    match text.parse::<Ipv4Addr>() {
        Ok(written) => written == address,
        Err(_) => false,
    }
}
