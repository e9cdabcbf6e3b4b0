use crate::bytes::{meant, number, shown, split_word};
use crate::paced::Paced;
use mof_metamodel::{NoMemory, Seq, Text, or_drop};
use qvtr_engine::run;
use std::alloc::Global;
use std::mem;
use vault_io::{Failed, LoadError, MemSink, MemVault, NamedFile, Vault, load, print_all};

/// What stands before a case: the files and the failing calls of the next vaults and sinks, and those that are there.
#[derive(Drop)]
pub struct Session {
    alloc: Global,
    files: Vec<NamedFile>,
    failing: Vec<u64>,
    vault: Paced<MemVault>,
    sink: Paced<MemSink>,
}

impl Session {
    pub fn new(alloc: Global) -> Result<Session, NoMemory> {
        let vault = MemVault::new(alloc, Seq::new(alloc), Seq::new(alloc))?;
        Ok(Session {
            alloc,
            files: Vec::new(alloc),
            failing: Vec::new(alloc),
            vault: Paced {
                inner: vault,
                most: usize::MAX,
            },
            sink: Paced {
                inner: MemSink::new(alloc, Seq::new(alloc)),
                most: usize::MAX,
            },
        })
    }

    /// What a line comes to: nothing, or an answer.
    pub fn answer(&mut self, line: &str) -> Result<Option<String>, NoMemory> {
        let (verb, rest) = split_word(line);
        let answer = match verb {
            "read" => self.read(rest),
            "load" => loaded(self.alloc, &mut self.vault, rest),
            "put" => put(self.alloc, &mut self.vault, rest),
            "print" => self.print(rest),
            "run" => self.run(rest),
            "file?" => self.file(rest),
            "vault?" => self.counts_of_vault(),
            "sink?" => self.counts_of_sink(),
            _ => {
                self.prepare(verb, rest)?;
                return Ok(None);
            }
        };
        Ok(Some(answer?))
    }

    /// Does what a line says that asks for nothing.
    fn prepare(&mut self, verb: &str, rest: &str) -> Result<(), NoMemory> {
        match verb {
            "file" => self.add_file(rest),
            "+" => self.add_line(rest),
            "*" => self.add_often(rest),
            "failing" => self.set_failing(rest),
            "pace" => {
                self.vault.most = number(rest) as usize;
                self.sink.most = number(rest) as usize;
                Ok(())
            }
            "vault" => self.begin_vault(),
            "sink" => self.begin_sink(),
            _ => Ok(()),
        }
    }

    fn add_file(&mut self, rest: &str) -> Result<(), NoMemory> {
        let (name, text) = split_word(rest);
        let name = Text::new(self.alloc, name)?;
        let bytes = or_drop!(meant(self.alloc, text); name);
        self.files.push(NamedFile { name, bytes })?;
        Ok(())
    }

    fn add_line(&mut self, line: &str) -> Result<(), NoMemory> {
        if let Some(file) = self.files.last_mut() {
            let mut bytes = Vec::from_slice(self.alloc, file.bytes.as_slice())?;
            or_drop!(bytes.extend_from_slice(line.as_bytes()); bytes);
            or_drop!(bytes.push(b'\n'); bytes);
            drop(mem::replace(&mut file.bytes, Seq::from_vec(bytes)));
        }
        Ok(())
    }

    fn add_often(&mut self, rest: &str) -> Result<(), NoMemory> {
        let (count, text) = split_word(rest);
        if let Some(file) = self.files.last_mut() {
            let mut bytes = Vec::from_slice(self.alloc, file.bytes.as_slice())?;
            for _ in 0..number(count) {
                or_drop!(bytes.extend_from_slice(text.as_bytes()); bytes);
            }
            drop(mem::replace(&mut file.bytes, Seq::from_vec(bytes)));
        }
        Ok(())
    }

    fn set_failing(&mut self, rest: &str) -> Result<(), NoMemory> {
        self.failing.clear();
        for word in rest.split(' ') {
            if !word.is_empty() {
                self.failing.push(number(word))?;
            }
        }
        Ok(())
    }

    fn failing_calls(&self) -> Result<Seq<u64>, NoMemory> {
        Seq::from_slice(self.alloc, self.failing.as_slice())
    }

    fn copied_files(&self) -> Result<Seq<NamedFile>, NoMemory> {
        let mut files = Seq::new(self.alloc);
        for file in &self.files {
            let name = or_drop!(Text::new(self.alloc, file.name.as_str()); files);
            let bytes = or_drop!(Seq::from_slice(self.alloc, file.bytes.as_slice()); name, files);
            or_drop!(files.push(NamedFile { name, bytes }); files);
        }
        Ok(files)
    }

    fn begin_vault(&mut self) -> Result<(), NoMemory> {
        let files = self.copied_files()?;
        let failing = or_drop!(self.failing_calls(); files);
        let vault = MemVault::new(self.alloc, files, failing)?;
        drop(mem::replace(&mut self.vault.inner, vault));
        Ok(())
    }

    fn begin_sink(&mut self) -> Result<(), NoMemory> {
        let sink = MemSink::new(self.alloc, self.failing_calls()?);
        drop(mem::replace(&mut self.sink.inner, sink));
        Ok(())
    }

    fn read(&mut self, rest: &str) -> Result<String, NoMemory> {
        let (name, rest) = split_word(rest);
        let (at, count) = split_word(rest);
        let mut into = [0u8; 64];
        let count = (number(count) as usize).min(into.len());
        match self.vault.read_at(name, number(at), &mut into[..count]) {
            Ok(count) => shown(self.alloc, &into[..count]),
            Err(Failed) => Ok(String::from_str(self.alloc, "failed")?),
        }
    }

    fn file(&self, name: &str) -> Result<String, NoMemory> {
        match self.vault.inner.file(name) {
            Some(bytes) => shown(self.alloc, bytes),
            None => Ok(String::from_str(self.alloc, "no file")?),
        }
    }

    fn print(&mut self, text: &str) -> Result<String, NoMemory> {
        let bytes = meant(self.alloc, text)?;
        let word = match print_all(&mut self.sink, bytes.as_slice()) {
            Ok(()) => "printed",
            Err(Failed) => "failed",
        };
        drop(bytes);
        Ok(String::from_str(self.alloc, word)?)
    }

    fn counts_of_vault(&self) -> Result<String, NoMemory> {
        let failed = self.vault.inner.fault_count();
        let starved = self.vault.inner.starved_count();
        Ok(format!(in self.alloc; "{failed} failed, {starved} starved")?)
    }

    fn counts_of_sink(&self) -> Result<String, NoMemory> {
        let failed = self.sink.inner.fault_count();
        let starved = self.sink.inner.starved_count();
        let held = shown(self.alloc, self.sink.inner.bytes())?;
        let text = format!(in self.alloc; "{failed} failed, {starved} starved, {held}");
        drop(held);
        Ok(text?)
    }

    fn run(&mut self, rest: &str) -> Result<String, NoMemory> {
        let words = words_of(self.alloc, rest)?;
        or_drop!(self.begin_sink(); words);
        let status = run(
            self.alloc,
            words.as_slice(),
            &mut self.vault,
            &mut self.sink,
        );
        drop(words);
        let code = status.code();
        let held = shown(self.alloc, self.sink.inner.bytes())?;
        let text = format!(in self.alloc; "{code} {held}");
        drop(held);
        Ok(text?)
    }
}

/// The words of a run.
fn words_of(alloc: Global, text: &str) -> Result<Vec<String>, NoMemory> {
    let mut words = Vec::new(alloc);
    if !text.is_empty() {
        for word in text.split(' ') {
            let word = or_drop!(String::from_str(alloc, word); words);
            or_drop!(words.push(word); words);
        }
    }
    Ok(words)
}

/// What a load from a vault comes to, of a case `NAME LIMIT`.
pub fn loaded<F: Vault>(alloc: Global, vault: &mut F, rest: &str) -> Result<String, NoMemory> {
    let (name, limit) = split_word(rest);
    let word = match load(alloc, vault, name, number(limit) as usize) {
        Ok(bytes) => {
            let text = shown(alloc, bytes.as_slice());
            drop(bytes);
            return text;
        }
        Err(LoadError::Failed) => "failed",
        Err(LoadError::TooLong) => "too long",
        Err(LoadError::NoMemory) => return Err(NoMemory),
    };
    Ok(String::from_str(alloc, word)?)
}

/// What a put to a vault comes to, of a case `NAME TEXT`.
pub fn put<F: Vault>(alloc: Global, vault: &mut F, rest: &str) -> Result<String, NoMemory> {
    let (name, text) = split_word(rest);
    let bytes = meant(alloc, text)?;
    let word = match vault.put(name, bytes.as_slice()) {
        Ok(()) => "put",
        Err(Failed) => "failed",
    };
    drop(bytes);
    Ok(String::from_str(alloc, word)?)
}
