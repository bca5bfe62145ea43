//! Papers, as a line names them.
ghost use Rattle.script.specs.Answers.{PaperRead};

use crate::fault::ScriptFault;
use hex::FromHexError;
use std::alloc::Global;

/// A paper: the path of a file, or the bytes themselves.
#[derive(Drop)]
pub enum PaperWord<'a> {
    Path(&'a str),
    Bytes(Vec<u8>),
}

impl<'a> PaperWord<'a> {
    /// A word that begins with `hex:` holds the paper's bytes; any other is a path.
    #[tactic(auto, using(crate::proofs::Decoding::bytes_decoded))]
    pub(crate) fn read(heap: Global, word: &'a str) -> Result<PaperWord<'a>, ScriptFault<'a>>
        ensures { PaperRead word.now result }
    {
        let Some(digits) = word.strip_prefix("hex:") else {
            return Ok(PaperWord::Path(word));
        };
        match hex::decode(heap, digits) {
            Ok(bytes) => Ok(PaperWord::Bytes(bytes)),
            Err(FromHexError::OutOfMemory) => Err(ScriptFault::NoMemory),
            Err(_) => Err(ScriptFault::BadHex(word)),
        }
    }
}
