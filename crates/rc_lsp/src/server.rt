//! A server: its state, and what it answers to a message.

ghost use Rattle.std.specs.Prelude.{◌≡◌, Some, option_map};
ghost use Rattle.serde_json.specs.View.{view};
ghost use Rattle.rc_lsp.specs.Messages.{notification};
ghost use Rattle.rc_lsp.specs.Reports as reports;
ghost use Rattle.rc_report.specs.Text.{PutsSome};

use crate::asks::{
    Document, definition_value, folding_value, formatting_value, highlights_value, hover_value,
    references_value,
};
use crate::bodies::value_of;
use crate::documents::Documents;
use crate::fields::{field, uri_field};
use crate::found::executed;
use crate::message::{Message, message_of};
use crate::offers::{actions_value, completions_value, renamable_value, renamed_value};
use crate::outline::outline_value;
use crate::replies::{Fault, Refusal, put_answer, put_fault};
use crate::reports::{Report, report_of};
use crate::texts::heed;
use serde_json::Value;
use std::alloc::{AllocError, Global};

/// How far the life of a server is.
#[derive(Clone, Copy)]
enum Stage {
    /// Before `initialize`.
    Fresh,
    Running,
    /// After `shutdown`.
    ShutDown,
}

/// What comes after a message.
#[derive(Clone, Copy)]
pub enum Next {
    /// More messages.
    More,
    /// The end, and whether a shutdown came before it.
    Exit { is_clean: bool },
}

/// A server.
#[derive(Drop)]
pub struct Server {
    stage: Stage,
    documents: Documents,
    /// The URI of the folder with the documents of Ringcheck, if it is known.
    docs: Option<String>,
}

impl Server {
    ghost use Rattle.rc_lsp.specs.Reactions.{Answers, Reacts, is_running, report_in};

    /// A server that has had no message.
    pub fn new(alloc: Global) -> Server {
        Server {
            stage: Stage::Fresh,
            documents: Documents::new(alloc),
            docs: None,
        }
    }

    /// Answers a message by its body: adds whole frames to `out`. Answers an error only where memory ran out.
    pub fn answer(
        &mut self,
        alloc: Global,
        body: &[u8],
        out: &mut Vec<u8>,
    ) -> Result<Next, AllocError>
        ensures { PutsSome (Answers body.now self.old self.new) out.old out.new result }
    {
        let value = value_of(alloc, body)?;
        let message = message_of(&value);
        self.react(alloc, message, out)?;
        Ok(self.next_after(message))
    }

    /// Answers a message.
    fn react(
        &mut self,
        alloc: Global,
        message: Message<'_>,
        out: &mut Vec<u8>,
    ) -> Result<(), AllocError>
        ensures { PutsSome (Reacts (report_in (is_running self.old.stage) (notification message.entry)) self.old.documents self.new.documents) out.old out.new result }
    {
        match message {
            Message::Request { id, method, params } => {
                let answer = self.result_of(alloc, method, params);
                put_answer(out, alloc, id, answer)
            }
            Message::Notification { method, params } => self.heed(alloc, method, params, out),
            Message::Response => Ok(()),
            Message::Other { id, fault } => {
                put_fault(out, alloc, id.unwrap_or(&Value::Null), fault)
            }
        }
    }

    /// What comes after a message.
    fn next_after(&self, message: Message<'_>) -> Next {
        match message {
            Message::Notification { method: "exit", .. } => Next::Exit {
                is_clean: self.is_shut_down(),
            },
            _ => Next::More,
        }
    }

    /// Whether there was a shutdown.
    pub fn is_shut_down(&self) -> bool {
        matches!(self.stage, Stage::ShutDown)
    }

    /// The result of a request.
    fn result_of(&mut self, alloc: Global, method: &str, params: &Value) -> Result<Value, Refusal>
        ensures { self.new.documents ≡ self.old.documents }
    {
        match (self.stage, method) {
            (Stage::Fresh, "initialize") => self.initialized(alloc, params),
            (Stage::Fresh, _) => Err(Refusal::Fault(Fault::NotInitialized)),
            (Stage::Running, "initialize") | (Stage::ShutDown, _) => {
                Err(Refusal::Fault(Fault::InvalidRequest))
            }
            (Stage::Running, "shutdown") => {
                self.stage = Stage::ShutDown;
                Ok(Value::Null)
            }
            (Stage::Running, _) => self.asked(alloc, method, params),
        }
    }

    /// The result of a request on documents.
    fn asked(&self, alloc: Global, method: &str, params: &Value) -> Result<Value, Refusal> {
        match method {
            "workspace/executeCommand" => executed(alloc, &self.documents, params),
            "textDocument/hover" => hover_value(alloc, self.document(params)?, params),
            "textDocument/definition" => definition_value(alloc, self.document(params)?, params),
            "textDocument/references" => references_value(alloc, self.document(params)?, params),
            "textDocument/documentHighlight" => {
                highlights_value(alloc, self.document(params)?, params)
            }
            "textDocument/documentSymbol" => outline_value(alloc, self.document(params)?),
            "textDocument/foldingRange" => folding_value(alloc, self.document(params)?),
            "textDocument/formatting" => formatting_value(alloc, self.document(params)?),
            "textDocument/completion" => completions_value(alloc, self.document(params)?, params),
            "textDocument/prepareRename" => renamable_value(alloc, self.document(params)?, params),
            "textDocument/rename" => renamed_value(alloc, self.document(params)?, params),
            "textDocument/codeAction" => actions_value(alloc, self.document(params)?, params),
            _ => Err(Refusal::Fault(Fault::UnknownMethod)),
        }
    }

    /// The document that parameters name, which has to be open.
    fn document<'a>(&'a self, params: &'a Value) -> Result<Document<'a>, Fault> {
        let uri = uri_field(params)?;
        match self.documents.text(uri) {
            Some(text) => Ok(Document { uri, text }),
            None => Err(Fault::InvalidParams),
        }
    }

    /// `initialize`: what the server can.
    fn initialized(&mut self, alloc: Global, params: &Value) -> Result<Value, Refusal>
        ensures { self.new.documents ≡ self.old.documents }
    {
        field(params, "capabilities")?;
        self.docs = docs_of(alloc, params)?;
        self.stage = Stage::Running;
        Value::from_str(alloc, ABILITIES).map_err(|_| Refusal::OutOfMemory)
    }

    /// What a notification reports, if the server runs.
    fn report_in<'a>(&self, method: &str, params: &'a Value) -> Option<Report<'a>>
        ensures { option_map reports.change result ≡ report_in (is_running self.now.stage) (Some (method.now, view params.now)) }
    {
        match self.stage {
            Stage::Running => report_of(method, params),
            Stage::Fresh | Stage::ShutDown => None,
        }
    }

    /// Heeds a notification, while the server runs. What nobody knows, and what has wrong parameters, is passed over.
    fn heed(
        &mut self,
        alloc: Global,
        method: &str,
        params: &Value,
        out: &mut Vec<u8>,
    ) -> Result<(), AllocError>
        ensures { PutsSome (Reacts (report_in (is_running self.old.stage) (Some (method.now, view params.now))) self.old.documents self.new.documents) out.old out.new result }
    {
        match self.report_in(method, params) {
            Some(report) => {
                let docs = self.docs.as_deref();
                heed(out, alloc, &mut self.documents, docs, report)
            }
            None => Ok(()),
        }
    }
}

/// What the server can, and its name.
const ABILITIES: &str = r#"{
    "capabilities": {
        "codeActionProvider": {"codeActionKinds": ["quickfix", "refactor.rewrite"]},
        "completionProvider": {"triggerCharacters": [" ", ":"]},
        "definitionProvider": true,
        "documentFormattingProvider": true,
        "documentHighlightProvider": true,
        "documentSymbolProvider": true,
        "executeCommandProvider": {"commands": ["ringcheck.find", "ringcheck.findStuck"]},
        "foldingRangeProvider": true,
        "hoverProvider": true,
        "positionEncoding": "utf-16",
        "referencesProvider": true,
        "renameProvider": {"prepareProvider": true},
        "textDocumentSync": {"change": 1, "openClose": true, "save": true}
    },
    "serverInfo": {"name": "ringcheck"}
}"#;

/// The URI of the folder with the documents of Ringcheck: that of `initializationOptions.docs`, or docs/ of the root that
/// the editor has open.
fn docs_of(alloc: Global, params: &Value) -> Result<Option<String>, AllocError> {
    if let Some(Value::String(docs)) = params.pointer("/initializationOptions/docs") {
        return Ok(Some(docs.clone()?));
    }
    match params.get("rootUri") {
        Some(Value::String(root)) => Ok(Some(format!(in alloc; "{root}/docs")?)),
        _ => Ok(None),
    }
}
