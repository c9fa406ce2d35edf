// Sheets, the program `watch` over each of them with no flag byte: refusals 1, 2, 4 to 15, 23, 24, and rules just inside the limits. A case is a name
// and a sheet. tests/oracle/watch.py works out the same.
use crate::fault::Fault;
use case_file::read_bytes;
use std::rt::Runtime;

// One line or two: the sheet's name, and what `watch` prints.
pub(crate) fn take_case<R: Runtime>(rt: &R, name: &[u8], field: &[u8]) -> Result<(), Fault> {
    let mut space = [0u8; 65536];
    let count = read_bytes(field, &mut space)?;
    rt.write_all(name)?;
    rt.write_all(b": ")?;
    watch_run::watch_sheet(rt, &space[..count]);
    Ok(())
}
