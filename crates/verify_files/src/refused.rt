//! What is told of a file that is refused.

use idtext::{ReadError, TextFault, push_escaped, push_number};
use std::alloc::AllocError;
use std::io::Write;
use unify_io::FileFault;

// Appends the line of a fault: as fault lines of hosts' files have it, with the path that was
// given in place of the host.
fn push_refusal(line: &mut Vec<u8>, path: &str, fault: TextFault) -> Result<(), AllocError> {
    line.extend_from_slice(b"unify: ")?;
    push_number(line, u128::from(fault.code.number()))?;
    line.push(b' ')?;
    line.extend_from_slice(fault.code.title().as_bytes())?;
    line.extend_from_slice(b" file ")?;
    push_escaped(line, path.as_bytes())?;
    line.extend_from_slice(b" line ")?;
    push_number(line, u128::from(fault.line))?;
    line.push(b'\n')?;
    Ok(())
}

/// Tells why the text of a file was not taken, unless it was for want of memory, which is told
/// later.
pub(crate) fn refused(rt: &HostRuntime, path: &str, error: ReadError) -> FileFault {
    let ReadError::Fault(fault) = error else {
        return FileFault::Memory;
    };
    let mut line = Vec::new(rt.alloc());
    match push_refusal(&mut line, path, fault) {
        Ok(()) => {
            let _ = rt.stderr().write_all(&line);
            FileFault::Told(1)
        }
        Err(_) => FileFault::Memory,
    }
}
