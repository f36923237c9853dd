//! The gateway's name.

use pg_operator::is_gateway_name;
use pg_wire::Refusal;
use std::alloc::Global;
use std::fs;

/// Where the system shows the host's name.
const HOST_NAME: &str = "/proc/sys/kernel/hostname";

/// The name that a setup gives; else the host's; else `pdcgw`, where the host's can't be read or can be no gateway's name.
pub(crate) fn name_of(
    files: &HostRuntime,
    alloc: Global,
    given: Option<&String>,
) -> Result<String, Refusal> {
    if let Some(name) = given {
        return Ok(String::from_str(alloc, name.as_str())?);
    }
    let name = match fs::read(files, HOST_NAME) {
        Ok(bytes) => host_name(bytes),
        Err(_) => None,
    };
    match name {
        Some(name) => Ok(name),
        None => Ok(String::from_str(alloc, "pdcgw")?),
    }
}

/// The name that a file of one line has, if it can be one.
fn host_name(mut bytes: Vec<u8>) -> Option<String> {
    if bytes.last() == Some(&b'\n') {
        bytes.pop();
    }
    if is_gateway_name(bytes.as_slice()) {
        String::from_utf8(bytes).ok()
    } else {
        None
    }
}
