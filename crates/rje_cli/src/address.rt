//! Addresses on the command line.
ghost use Rattle.std.specs.Prelude.{◌≡◌, ◌↔◌, IsTrue};
ghost use Rattle.std.specs.List.{list_all, list_any};
ghost use Rattle.std.specs.Char.{is_ascii_alphabetic};
ghost use Rattle.rje_cli.specs.Address.{IsAddressOf, has_leading_zero, host_text, port_text};
ghost use Rattle.rje_cli.specs.Address.{IsHostAddress, IsHostName, IsNamedAddress, IsPort, is_host_character, starts_as_host, starts_with_plus};

use std::net::{SocketAddr, SocketAddrV4};

/// The address of a text: four decimal numbers from 0 to 255 with dots between, a colon and a port
/// from 0 to 65535, none of them with leading zeros. None for any other text.
pub fn address_of(text: &str) -> Option<SocketAddr>
    ensures { IsAddressOf text.now result }
{
    if has_leading_zero(port_of(text)) {
        return None;
    }
    match text.parse::<SocketAddrV4>() {
        Ok(address) => Some(SocketAddr::V4(address)),
        Err(_) => None,
    }
}

/// Whether the text is an address, or a host's name, a colon and a port from 0 to 65535 without
/// leading zeros. A name is up to 253 letters, digits, dots and hyphens, at least one of them a
/// letter, and the first of them a letter or a digit.
pub fn is_host_address(text: &str) -> bool
    ensures { IsTrue result ↔ IsHostAddress text.now }
{
    address_of(text).is_some() || is_named_address(text)
}

fn is_named_address(text: &str) -> bool
    ensures { IsTrue result ↔ IsNamedAddress text.now }
{
    is_host_name(host_of(text)) && is_port(port_of(text))
}

fn is_host_name(name: &str) -> bool
    ensures { IsTrue result ↔ IsHostName name.now }
{
    let name = name.as_bytes();
    name.len() <= 253 && starts_as_host(name) && are_host_characters(name) && has_letter(name)
}

fn starts_as_host(name: &[u8]) -> bool
    ensures { result ≡ starts_as_host name.now }
{
    !name.is_empty() && name[0].is_ascii_alphanumeric()
}

fn are_host_characters(name: &[u8]) -> bool
    ensures { result ≡ list_all is_host_character name.now }
{
    name.iter().all(|byte| is_host_character(*byte))
}

/// Whether this is a letter, a digit, a dot or a hyphen.
fn is_host_character(byte: u8) -> bool
    ensures { result ≡ is_host_character byte }
{
    byte.is_ascii_alphanumeric() || byte == b'.' || byte == b'-'
}

fn has_letter(name: &[u8]) -> bool
    ensures { result ≡ list_any is_ascii_alphabetic name.now }
{
    name.iter().any(|byte| byte.is_ascii_alphabetic())
}

/// Whether the text is a number from 0 to 65535 without leading zeros.
fn is_port(text: &str) -> bool
    ensures { IsTrue result ↔ IsPort text.now }
{
    if has_leading_zero(text) || starts_with_plus(text) {
        return false;
    }
    text.parse::<u16>().is_ok()
}

fn starts_with_plus(text: &str) -> bool
    ensures { result ≡ starts_with_plus text.now }
{
    !text.is_empty() && text.as_bytes()[0] == b'+'
}

/// What stands before the first colon, and all of it where there is no colon.
fn host_of(text: &str) -> &str
    ensures { result.now ≡ host_text text.now }
{
    match text.split_once(':') {
        Some((host, _)) => host,
        None => text,
    }
}

/// What stands after the first colon, and nothing where there is no colon.
fn port_of(text: &str) -> &str
    ensures { result.now ≡ port_text text.now }
{
    match text.split_once(':') {
        Some((_, port)) => port,
        None => "",
    }
}

fn has_leading_zero(port: &str) -> bool
    ensures { result ≡ has_leading_zero port.now }
{
    1 < port.len() && port.as_bytes()[0] == b'0'
}
