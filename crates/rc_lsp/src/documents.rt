//! The documents that an editor has open.

ghost use Rattle.std.specs.Prelude.{◌≡◌, ◌≤◌, if◌then◌else◌, IfOk, None, OnOk, Some, is_some, option_map, true};
ghost use Rattle.std.specs.BTreeMap.{btree_map_len};
ghost use Rattle.rc_report.specs.Text.{PutsAnswer};

use crate::diagnostics::Place;
use crate::publishing::publish;
use rc_report::verdict::Verdict;
use std::alloc::{AllocError, Global};
use std::collections::BTreeMap;

/// How many documents are open at most.
pub const MOST_DOCUMENTS: usize = 64;

/// The texts of the documents that are open, by their URIs.
#[derive(Drop)]
pub struct Documents {
    pub texts: BTreeMap<String, Vec<u8>>,
    ghost within: { btree_map_len texts ≤ 64 },
}

impl Documents {
    ghost use Rattle.rc_lsp.specs.Documents.{IsChanged, IsGiven, Shows, has_room, text_of};

    /// No document.
    pub fn new(alloc: Global) -> Documents
        ensures { btree_map_len result.texts ≡ 0 }
    {
        Documents {
            texts: BTreeMap::new(alloc),
        }
    }

    /// The last text of a document, if it is open.
    pub fn text(&self, uri: &str) -> Option<&[u8]>
        ensures { option_map (λ text. text.now) result ≡ text_of uri.now self.now }
    {
        match self.texts.get(uri) {
            Some(text) => Some(text.as_slice()),
            None => None,
        }
    }

    /// Whether a document is open, or one more may be opened.
    pub fn has_room(&self, uri: &str) -> bool
        ensures { result ≡ has_room uri.now self.now }
    {
        self.texts.contains_key(uri) || self.texts.len() < MOST_DOCUMENTS
    }

    /// Gives a document its text, and publishes the verdict on it, which is answered. One that isn't open is opened, unless
    /// 64 others are: then nothing is kept, published or answered. Each other document stays as it is.
    pub fn change(
        &mut self,
        out: &mut Vec<u8>,
        alloc: Global,
        place: Place<'_>,
        text: &[u8],
    ) -> Result<Option<Verdict>, AllocError>
        ensures kept { OnOk result (IsChanged (has_room place.entry.uri.now self.old) place.entry.uri.now text.now self.old self.new) }
        ensures published { PutsAnswer (Shows place.entry.uri.now (if has_room place.entry.uri.now self.old then Some text.now else None)) out.old out.new result }
    {
        if !self.has_room(place.uri) {
            return Ok(None);
        }
        self.keep(alloc, place.uri, text)?;
        self.show(out, alloc, place)
    }

    /// Gives a document its text.
    fn keep(&mut self, alloc: Global, uri: &str, text: &[u8]) -> Result<(), AllocError>
        requires { has_room uri.now self.old ≡ true }
        ensures kept { OnOk result (text_of uri.now self.new ≡ Some text.now) }
        ensures others { OnOk result (IsGiven uri.now (Some text.now) self.old self.new) }
    {
        let name = String::from_str(alloc, uri)?;
        let text = Vec::from_slice(alloc, text)?;
        self.texts.insert(name, text)?;
        Ok(())
    }

    /// Publishes the verdict on the last text of a document, if it is open, and answers it.
    pub fn show(
        &self,
        out: &mut Vec<u8>,
        alloc: Global,
        place: Place<'_>,
    ) -> Result<Option<Verdict>, AllocError>
        ensures { PutsAnswer (Shows place.entry.uri.now (text_of place.entry.uri.now self.now)) out.old out.new result }
    {
        match self.text(place.uri) {
            Some(text) => Ok(Some(publish(out, alloc, place, text)?)),
            None => Ok(None),
        }
    }

    /// Closes a document, and whether it was open. Each other one stays as it is.
    pub fn close(&mut self, uri: &str) -> bool
        ensures open { result ≡ is_some (text_of uri.now self.old) }
        ensures closed { IsGiven uri.now None self.old self.new }
    {
        self.texts.remove(uri).is_some()
    }
}
