//! Scripts by their texts.
use crate::lines::put_line;
use case_texts::Pen;
use qv_syntax::Script;
use script_files::{read_script, script_fault_text};
use std::alloc::Global;

/// The script of a text. Where there is none, the fault is written.
pub(crate) fn script_of(alloc: Global, pen: &mut Pen, bytes: &[u8]) -> Option<Script> {
    match read_script(alloc, bytes) {
        Ok(script) => Some(script),
        Err(error) => {
            put_line(pen, &script_fault_text(alloc, "s.qvtr", &error));
            None
        }
    }
}
