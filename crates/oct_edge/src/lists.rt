//! Vectors that contracts see as lists. None of their calls takes memory or copies an item.
ghost use Rattle.std.specs.Prelude.{◌≡◌, ℕ, List};

use std::marker::Model;

/// Bytes, as a text or a file's name in UTF-8.
#[derive(Drop)]
pub struct ByteList {
    items: Vec<u8>,
}

impl Model for ByteList {
    ghost Value = { List ℕ };

    ghost view = { λ s. s.items.items };
}

impl ByteList {
    /// The list of these items.
    pub fn of(items: Vec<u8>) -> ByteList
        ensures { result ≡ items.items }
    {
        ByteList { items }
    }

    /// The items in their order.
    pub fn items(&self) -> &[u8]
        ensures { result.now ≡ self.now }
    {
        &self.items
    }

    /// The vector behind the list.
    pub fn into_items(self) -> Vec<u8>
        ensures { result.items ≡ self }
    {
        let ByteList { items } = self;
        items
    }
}

/// Numbers of calls, counted from 0.
#[derive(Drop)]
pub struct CallList {
    items: Vec<u64>,
}

impl Model for CallList {
    ghost Value = { List ℕ };

    ghost view = { λ s. s.items.items };
}

impl CallList {
    /// The list of these items.
    pub fn of(items: Vec<u64>) -> CallList
        ensures { result ≡ items.items }
    {
        CallList { items }
    }

    /// The items in their order.
    pub fn items(&self) -> &[u64]
        ensures { result.now ≡ self.now }
    {
        &self.items
    }

    /// The vector behind the list.
    pub fn into_items(self) -> Vec<u64>
        ensures { result.items ≡ self }
    {
        let CallList { items } = self;
        items
    }
}

/// A file's name and its bytes.
#[derive(Drop)]
pub struct NamedFile {
    pub name: ByteList,
    pub bytes: ByteList,
}

/// Files. Of two files with one name the first is the one that is found.
#[derive(Drop)]
pub struct FileList {
    items: Vec<NamedFile>,
}

impl Model for FileList {
    ghost use Rattle.std.specs.Prelude.{List};
    ghost use Rattle.oct_edge.specs.declared.lists.NamedFile.{NamedFile};

    ghost Value = { List NamedFile };

    ghost view = { λ s. s.items.items };
}

impl FileList {
    /// The list of these items.
    pub fn of(items: Vec<NamedFile>) -> FileList
        ensures { result ≡ items.items }
    {
        FileList { items }
    }

    /// The items in their order.
    pub fn items(&self) -> &[NamedFile]
        ensures { result.now ≡ self.now }
    {
        &self.items
    }

    /// The vector behind the list.
    pub fn into_items(self) -> Vec<NamedFile>
        ensures { result.items ≡ self }
    {
        let FileList { items } = self;
        items
    }
}
