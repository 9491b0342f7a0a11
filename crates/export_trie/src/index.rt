// The exports of several images, found by their names.
ghost use Rattle.std.specs.Prelude.{◌≡◌, ◌<◌, ◌+◌, ◌++◌, ◌∷◌, [], List, length, slice_index_or, None, IfOk, OnOk, OnErr, option_map};
ghost use Rattle.export_trie.specs.Exports.{exports_of};
ghost use Rattle.export_trie.specs.Finding.{target_in, target_named};
ghost use Rattle.export_trie.specs.Index.{exports_in};
ghost use Rattle.export_trie.specs.Order.{trie_break};
ghost use Rattle.export_trie.specs.Planning.{Rising};

use crate::export::{Entry, Export, Target};
use crate::reading::read_trie;
use crate::steps::Steps;
use dsc_base::NoMemory;
use indexmap::IndexMap;
use std::alloc::Global;
use std::marker::Model;
use std::sync::ledger::Ledger;

/// What an export is besides its name.
#[derive(Drop)]
pub(crate) struct Meaning {
    flags: u8,
    target: Target,
}

/// The exports of images by their names. A contract sees it as the list of exports of each image.
#[derive(Drop)]
pub struct NameIndex {
    alloc: Global,
    maps: Vec<IndexMap<Vec<u8>, Meaning>>,
}

impl Model for NameIndex {
    ghost use Rattle.std.specs.Prelude.{List, map};
    ghost use Rattle.export_trie.specs.declared.export.Export.{Export};
    ghost use Rattle.export_trie.specs.Index.{exports_in};

    ghost Value = { List (List Export) };

    ghost view = { λ index. map (λ names. exports_in names.entries) index.maps.items };
}

/// Where a target leads, its name not copied.
fn entry_of(target: &Target) -> Entry<'_>
    ensures { target_in result ≡ target.now }
{
    match target {
        Target::Offset(value) => Entry::Offset(*value),
        Target::Absolute(value) => Entry::Absolute(*value),
        Target::Reexport { ordinal, name } => Entry::Reexport {
            ordinal: *ordinal,
            name: name.as_slice(),
        },
    }
}

/// One more export, of a name that isn't there.
fn keep_name(names: &mut IndexMap<Vec<u8>, Meaning>, export: Export) -> Result<(), NoMemory>
    requires { target_named (exports_in names.old.entries) export.name ≡ None }
    ensures { OnOk result (exports_in names.new.entries ≡ exports_in names.old.entries ++ export ∷ []) }
{
    let Export {
        name,
        flags,
        target,
    } = export;
    match names.insert(name.into_vec(), Meaning { flags, target }) {
        Ok(_) => Ok(()),
        Err(_) => Err(NoMemory),
    }
}

/// Exports by their names, which rise.
fn names_of(alloc: Global, exports: Vec<Export>) -> Result<IndexMap<Vec<u8>, Meaning>, NoMemory>
    requires { Rising exports.items }
    ensures { IfOk result (λ names. exports_in names.entries ≡ exports.items) }
{
    let mut names: IndexMap<Vec<u8>, Meaning> = IndexMap::new(alloc);
    for export in exports {
        keep_name(&mut names, export)?;
    }
    Ok(names)
}

/// Where the export of this name leads.
fn entry_named<'m>(names: &'m IndexMap<Vec<u8>, Meaning>, name: &[u8]) -> Option<Entry<'m>>
    ensures { option_map target_in result ≡ target_named (exports_in names.entry.now.entries) name.now }
{
    let meaning = names.get(name)?;
    Some(entry_of(&meaning.target))
}

impl NameIndex {
    /// No images. It keeps the allocator, and takes no memory.
    pub fn new(alloc: Global) -> NameIndex
        ensures { result ≡ [] }
    {
        NameIndex {
            alloc,
            maps: Vec::new(alloc),
        }
    }

    /// Adds an image, whose exports are those of the trie. `read_trie` must accept the trie, and the index has
    /// at most 4,096 images so far. After `NoMemory`, which says that memory ran out, the index is as before.
    pub fn add(&mut self, trie: &[u8]) -> Result<(), NoMemory>
        requires accepted { trie_break trie.now ≡ None }
        requires few { length self.old < 4097 }
        ensures added { OnOk result (self.new ≡ self.old ++ exports_of trie.now ∷ []) }
        ensures unchanged { OnErr result (self.new ≡ self.old) }
    {
        let Ok(exports) = read_trie(self.alloc, trie) else {
            return Err(NoMemory);
        };
        let names = names_of(self.alloc, exports)?;
        self.maps.push(names)?;
        Ok(())
    }

    /// Where the image's export of this name leads. None where it has no export of the name. It takes one
    /// step, and no memory.
    pub fn probe<'a, L: Ledger>(
        &'a self,
        image: u32,
        name: &[u8],
        steps: &mut Steps<L>,
    ) -> Option<Entry<'a>>
        requires { image < length self.now }
        ensures found { option_map target_in result ≡ target_named (slice_index_or self.entry.now image []) name.now }
        ensures counted { steps.new ≡ steps.old + 1 }
    {
        steps.tick();
        entry_named(&self.maps[image as usize], name)
    }
}
