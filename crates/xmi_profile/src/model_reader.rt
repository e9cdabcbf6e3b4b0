ghost use Rattle.std.specs.Prelude.{◌≡◌, [], ◌++◌, OnOk, OnErr};
ghost use Rattle.xmi_profile.specs.Reads.{Reads};

use crate::fault::XmiError;
use crate::model_reading::read_model;
use model_assembly::Externs;
use mof_metamodel::{MetaModel, NoMemory};
use object_tables::Model;
use std::alloc::Global;

/// Reads a model as XMI (XMI 2.5.1) that comes in pieces, which it keeps until the end. Contracts see the metamodel, what references
/// to the outside may name, and the bytes that it was fed.
#[derive(Drop)]
pub struct ModelReader<'m> {
    alloc: Global,
    meta: &'m MetaModel,
    externs: Externs,
    bytes: Vec<u8>,
}

impl<'m> std::marker::Model for ModelReader<'m> {
    ghost use Rattle.xmi_profile.specs.FedModel.{FedModel};

    ghost Value = { FedModel };

    ghost view = { λ r. record { meta = r.meta.now; outside = r.externs; bytes = r.bytes.items } };
}

impl<'m> ModelReader<'m> {
    /// A reader of a model of this metamodel, that was fed nothing. It takes no memory.
    pub fn new(alloc: Global, meta: &'m MetaModel, externs: Externs) -> ModelReader<'m>
        ensures { result ≡ record { meta = meta.now; outside = externs; bytes = [] } }
    {
        ModelReader {
            alloc,
            meta,
            externs,
            bytes: Vec::new(alloc),
        }
    }

    /// Takes the next bytes of the file. After `NoMemory` the reader is as it was.
    pub fn feed(&mut self, piece: &[u8]) -> Result<(), NoMemory>
        ensures ok { OnOk result (self.new ≡ record self.old { bytes = self.old.bytes ++ piece.now }) }
        ensures err { OnErr result (self.new ≡ self.old) }
    {
        self.bytes.extend_from_slice(piece)?;
        Ok(())
    }

    /// The model that the bytes spell, in whatever pieces they came, or the first fault of their markup, or of their content.
    pub fn finish(self) -> Result<Model<'m>, XmiError>
        ensures { Reads self.entry.meta self.entry.outside self.entry.bytes result }
    {
        read_model(self.alloc, self.meta, self.externs, self.bytes.as_slice())
    }
}
