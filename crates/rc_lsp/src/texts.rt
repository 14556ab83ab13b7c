//! What an editor reports of its documents is heeded.

ghost use Rattle.rc_lsp.specs.Documents.{IsGiven, has_room, text_of};
ghost use Rattle.rc_lsp.specs.Reactions.{Closes, Edits, Heeds, Opens, Saves};
ghost use Rattle.rc_lsp.specs.Reports as reports;
ghost use Rattle.rc_report.specs.Text.{PutsSome};
ghost use Rattle.std.specs.Prelude.{None, OnOk, is_some};

use crate::diagnostics::Place;
use crate::documents::Documents;
use crate::publishing::clear;
use crate::replies::put_shown;
use crate::reports::Report;
use std::alloc::{AllocError, Global};

/// What is shown of a document that isn't kept.
const NO_ROOM: &str =
    "ringcheck: 64 models are open, and this one isn't checked: close one and open it again";

/// Heeds a report: publishes the verdict on a document that is opened, changed or saved, and takes back what was published of
/// one that is closed.
#[tactic(auto, using(crate::proofs::Heeded::puts_with))]
pub fn heed(
    out: &mut Vec<u8>,
    alloc: Global,
    documents: &mut Documents,
    docs: Option<&str>,
    report: Report<'_>,
) -> Result<(), AllocError>
    ensures { PutsSome (Heeds (reports.change report.entry) documents.old documents.new) out.old out.new result }
{
    match report {
        Report::Opened { uri, text } => open(out, alloc, documents, Place { uri, docs }, text),
        Report::Edited { uri, text } => edit(out, alloc, documents, Place { uri, docs }, text),
        Report::Saved { uri } => save(out, alloc, documents, Place { uri, docs }),
        Report::Closed { uri } => close(out, alloc, documents, uri),
    }
}

/// Keeps a document that is opened and publishes the verdict on it, or shows that there is no room for it.
#[tactic(auto, using(crate::proofs::Heeded::opened_as, crate::proofs::Heeded::not_opened, crate::proofs::Heeded::puts_after_nothing))]
fn open(
    out: &mut Vec<u8>,
    alloc: Global,
    documents: &mut Documents,
    place: Place<'_>,
    text: &str,
) -> Result<(), AllocError>
    ensures { PutsSome (Opens (has_room place.entry.uri.now documents.old) place.entry.uri.now text.now documents.old documents.new) out.old out.new result }
{
    match documents.change(out, alloc, place, text.as_bytes())? {
        Some(_) => Ok(()),
        None => put_shown(out, alloc, NO_ROOM),
    }
}

/// Keeps the last text of a document that is open, and publishes the verdict on it.
#[tactic(auto, using(crate::proofs::Heeded::edited_as))]
fn edit(
    out: &mut Vec<u8>,
    alloc: Global,
    documents: &mut Documents,
    place: Place<'_>,
    text: &str,
) -> Result<(), AllocError>
    ensures { PutsSome (Edits (is_some (text_of place.entry.uri.now documents.old)) place.entry.uri.now text.now documents.old documents.new) out.old out.new result }
{
    if documents.text(place.uri).is_none() {
        return Ok(());
    }
    documents.change(out, alloc, place, text.as_bytes())?;
    Ok(())
}

/// Publishes the verdict on a document again.
#[tactic(auto, using(crate::proofs::Heeded::saved_as))]
fn save(
    out: &mut Vec<u8>,
    alloc: Global,
    documents: &Documents,
    place: Place<'_>,
) -> Result<(), AllocError>
    ensures { PutsSome (Saves place.entry.uri.now (text_of place.entry.uri.now documents.now)) out.old out.new result }
{
    documents.show(out, alloc, place)?;
    Ok(())
}

/// Forgets a document, and takes back what was published of it.
fn close(
    out: &mut Vec<u8>,
    alloc: Global,
    documents: &mut Documents,
    uri: &str,
) -> Result<(), AllocError>
    ensures closed { OnOk result (IsGiven uri.now None documents.old documents.new) }
    ensures published { PutsSome (Closes uri.now (is_some (text_of uri.now documents.old))) out.old out.new result }
{
    if documents.close(uri) {
        clear(out, alloc, uri)
    } else {
        Ok(())
    }
}
