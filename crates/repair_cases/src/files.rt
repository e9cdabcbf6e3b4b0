//! The files of cases.
use case_texts::expanded;
use mof_metamodel::{NoMemory, Text, or_drop};
use std::alloc::Global;

#[derive(Drop)]
struct CaseFile {
    name: Text,
    bytes: Vec<u8>,
}

/// The files that cases read. Of two of one name the later counts.
#[derive(Drop)]
pub struct CaseFiles {
    pub alloc: Global,
    files: Vec<CaseFile>,
}

impl CaseFiles {
    /// No files.
    pub fn new(alloc: Global) -> CaseFiles {
        CaseFiles {
            alloc,
            files: Vec::new(alloc),
        }
    }

    /// Adds a file, of a line `NAME TEXT`.
    pub fn add(&mut self, rest: &str) -> Result<(), NoMemory> {
        let (name, text) = rest.split_once(' ').unwrap_or((rest, ""));
        let name = Text::new(self.alloc, name)?;
        let bytes = or_drop!(expanded(self.alloc, text); name);
        self.files.push(CaseFile { name, bytes })?;
        Ok(())
    }

    /// Adds a line to the file that was added last.
    pub fn add_line(&mut self, text: &str) -> Result<(), NoMemory> {
        let more = expanded(self.alloc, text)?;
        if let Some(file) = self.files.last_mut() {
            or_drop!(file.bytes.extend_from_slice(more.as_slice()); more);
            or_drop!(file.bytes.push(b'\n'); more);
        }
        drop(more);
        Ok(())
    }

    /// The bytes of a file, none where it isn't there.
    pub fn bytes(&self, name: &str) -> &[u8] {
        let mut found: &[u8] = &[];
        for file in &self.files {
            if file.name.is(name) {
                found = file.bytes.as_slice();
            }
        }
        found
    }
}
