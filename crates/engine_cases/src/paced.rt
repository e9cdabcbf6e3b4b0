use vault_io::{Failed, Sink, Vault};

/// A vault or a sink that gives or takes at most so many bytes a call, and at least one.
#[derive(Drop)]
pub struct Paced<T> {
    pub inner: T,
    pub most: usize,
}

impl<F: Vault> Vault for Paced<F> {
    ghost files = { λ v. F.files v.inner };

    ghost faults = { λ v. F.faults v.inner };

    fn read_at(&mut self, name: &str, at: u64, into: &mut [u8]) -> Result<usize, Failed> {
        let most = into.len().min(self.most.max(1));
        self.inner.read_at(name, at, &mut into[..most])
    }

    fn put(&mut self, name: &str, bytes: &[u8]) -> Result<(), Failed> {
        self.inner.put(name, bytes)
    }
}

impl<K: Sink> Sink for Paced<K> {
    ghost told = { λ s. K.told s.inner };

    ghost faults = { λ s. K.faults s.inner };

    fn write(&mut self, piece: &[u8]) -> Result<usize, Failed> {
        let most = piece.len().min(self.most.max(1));
        self.inner.write(&piece[..most])
    }
}
