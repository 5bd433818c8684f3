//! The words of refusals.
ghost use Rattle.std.specs.Prelude.{◌≡◌, IfOk};
ghost use Rattle.geoplan.specs.Loading.{refused_view};
ghost use Rattle.geoplan.specs.Migrates.{too_many_cuts_text};
ghost use Rattle.geoplan.specs.Texts.{words_text, cannot_read_text, too_long_text, table_word, kind_word, table_text, log_kind_word, log_fault_text};

use crate::refused_table::RefusedTable;
use geo_base::NoMemory;
use itoa::Buffer;
use log_check::{LogFault, LogKind};
use point_tables::{FaultKind, TableName};
use std::alloc::Global;

/// What is printed where the words aren't accepted.
pub fn words_refusal(alloc: Global) -> Result<Vec<u8>, NoMemory>
    ensures { IfOk result (λ text. text.items ≡ words_text) }
{
    Ok(Vec::from_slice(alloc, b"words not understood\n")?)
}

/// What is printed where a file can't be read.
pub fn unread_refusal(alloc: Global, name: &str) -> Result<Vec<u8>, NoMemory>
    ensures { IfOk result (λ text. text.items ≡ cannot_read_text name.now) }
{
    let mut text = Vec::from_slice(alloc, b"cannot read ")?;
    text.extend_from_slice(name.as_bytes())?;
    text.extend_from_slice(b"\n")?;
    Ok(text)
}

/// What is printed where a file is too long.
pub fn too_long_refusal(alloc: Global, name: &str) -> Result<Vec<u8>, NoMemory>
    ensures { IfOk result (λ text. text.items ≡ too_long_text name.now) }
{
    let mut text = Vec::from_slice(alloc, b"too long ")?;
    text.extend_from_slice(name.as_bytes())?;
    text.extend_from_slice(b"\n")?;
    Ok(text)
}

/// The word for a table.
#[tactic(auto, unfolding(crate::specs::Texts::table_word))]
pub fn table_word(table: TableName) -> &'static str
    ensures { result.now ≡ table_word table }
{
    match table {
        TableName::Points => "points",
        TableName::Candidates => "candidates",
        TableName::Network => "network",
    }
}

/// The word for a kind of fault.
#[tactic(auto, unfolding(crate::specs::Texts::kind_word))]
pub fn kind_word(kind: FaultKind) -> &'static str
    ensures { result.now ≡ kind_word kind }
{
    match kind {
        FaultKind::Header => "Header",
        FaultKind::TooMany => "TooMany",
        FaultKind::Fields => "Fields",
        FaultKind::Utf8 => "Utf8",
        FaultKind::Name => "Name",
        FaultKind::Twice => "Twice",
        FaultKind::Number => "Number",
        FaultKind::Range => "Range",
        FaultKind::Missing => "Missing",
        FaultKind::Kind => "Kind",
        FaultKind::NoPoint => "NoPoint",
        FaultKind::Extra => "Extra",
        FaultKind::SamePoint => "SamePoint",
        FaultKind::NoPlane => "NoPlane",
        FaultKind::NoHeight => "NoHeight",
        FaultKind::Near => "Near",
        FaultKind::Far => "Far",
        FaultKind::TooManyUnknowns => "TooManyUnknowns",
        FaultKind::TooManyRows => "TooManyRows",
    }
}

/// What is printed where a table is refused.
pub fn table_refusal(alloc: Global, refused: RefusedTable) -> Result<Vec<u8>, NoMemory>
    ensures { IfOk result (λ text. text.items ≡ table_text (refused_view refused)) }
{
    let mut buffer = Buffer::new();
    let mut text = Vec::from_slice(alloc, b"table,")?;
    text.extend_from_slice(refused.table.as_bytes())?;
    text.extend_from_slice(b",")?;
    text.extend_from_slice(buffer.format(refused.number).as_bytes())?;
    text.extend_from_slice(b",")?;
    text.extend_from_slice(refused.kind.as_bytes())?;
    text.extend_from_slice(b"\n")?;
    Ok(text)
}

/// The word for a kind of fault of a log.
#[tactic(auto, unfolding(crate::specs::Texts::log_kind_word))]
fn log_kind_word(kind: LogKind) -> &'static str
    ensures { result.now ≡ log_kind_word kind }
{
    match kind {
        LogKind::Extra => "Extra",
        LogKind::Form => "Form",
        LogKind::Range => "Range",
        LogKind::NotOpen => "NotOpen",
        LogKind::Owner => "Owner",
        LogKind::NotRefuted => "NotRefuted",
        LogKind::CutHolds => "CutHolds",
        LogKind::Short => "Short",
    }
}

/// What is printed where a log is refused for a fault.
pub fn log_refusal(alloc: Global, fault: LogFault) -> Result<Vec<u8>, NoMemory>
    ensures { IfOk result (λ text. text.items ≡ log_fault_text fault) }
{
    let mut buffer = Buffer::new();
    let mut text = Vec::from_slice(alloc, b"refused,")?;
    text.extend_from_slice(buffer.format(fault.line).as_bytes())?;
    text.extend_from_slice(b",")?;
    text.extend_from_slice(log_kind_word(fault.kind).as_bytes())?;
    text.extend_from_slice(b"\n")?;
    Ok(text)
}

/// What is printed where a log uses more cuts than a log of format 2 can name.
pub fn cuts_refusal(alloc: Global) -> Result<Vec<u8>, NoMemory>
    ensures { IfOk result (λ text. text.items ≡ too_many_cuts_text) }
{
    Ok(Vec::from_slice(alloc, b"too many cuts\n")?)
}
