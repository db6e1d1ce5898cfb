//! The printed texts, and the file of a summary.
ghost use Rattle.std.specs.Prelude.{◌≡◌, IfErr, IfOk, OnOk, string_bytes};
ghost use Rattle.serde_json.specs.Written.{compact_text};
ghost use Rattle.databases.specs.Print.{WithoutLineEnd, batch_line, counts_line, database_data, database_line, event_line, service_data, service_line};
ghost use Rattle.databases.specs.Trouble.{trouble_data};
ghost use Rattle.databases.specs.declared.fault.CommandFault.TheVariants.{OutOfMemory};
ghost use Rattle.databases.specs.steps.Tokens.{AddsTokens, number_member, service_tokens, text_member, trouble_tokens};

use crate::fault::CommandFault;
use attributes::{Batch, Sequenced, Text};
use event_json::write_sequenced;
use json::Writer;
use std::alloc::{AllocError, Global};

/// The line of how many events were read for a database, and how many of them were new.
pub fn counts_line(alloc: Global, read: u64, fresh: u64) -> Result<Text, CommandFault>
    ensures line { IfOk result (λ text. text ≡ counts_line read fresh) }
    ensures fault { IfErr result (λ f. f ≡ OutOfMemory) }
{
    let repeated = read.saturating_sub(fresh);
    let line = format!(in alloc; "read {read} new {fresh} repeated {repeated}\n")?;
    Ok(Text::from_string(line))
}

/// A database's batch as one line.
pub fn batch_line(alloc: Global, batch: &Batch) -> Result<Text, AllocError>
    ensures { IfOk result (λ text. text ≡ batch_line batch.now) }
{
    let mut line = write_sequenced(alloc, batch)?.into_string();
    line.push_str("\n")?;
    Ok(Text::from_string(line))
}

/// An event of a database as one line.
pub fn event_line(alloc: Global, event: &Sequenced) -> Result<Text, AllocError>
    ensures { IfOk result (λ text. text ≡ event_line event.now) }
{
    let mut line = String::new(alloc);
    line.push_str(event.event().text())?;
    line.push_str("\n")?;
    Ok(Text::from_string(line))
}

/// Writes a member with a number into the line that tells of a database.
fn write_number(out: &mut Writer, name: &str, number: u64) -> Result<(), AllocError>
    ensures { OnOk result (AddsTokens out.old out.new (number_member name.now number)) }
{
    out.key(name)?;
    out.u64(number)?;
    Ok(())
}

/// Writes a member with a text into the line that tells of a database.
fn write_text(out: &mut Writer, name: &str, text: &str) -> Result<(), AllocError>
    ensures { OnOk result (AddsTokens out.old out.new (text_member name.now text.now)) }
{
    out.key(name)?;
    out.string(text)?;
    Ok(())
}

/// Writes a database's service as JSON.
fn write_service(
    out: &mut Writer,
    source: &str,
    base: u64,
    orders: u64,
    rows: u64,
) -> Result<(), AllocError>
    ensures { OnOk result (AddsTokens out.old out.new (service_tokens source.now base orders rows)) }
{
    out.begin_object()?;
    write_number(out, "base", base)?;
    write_number(out, "orders", orders)?;
    write_number(out, "rows", rows)?;
    write_text(out, "source", source)?;
    out.end_object()?;
    Ok(())
}

/// A database's service as JSON.
fn service_text(
    alloc: Global,
    source: &str,
    base: u64,
    orders: u64,
    rows: u64,
) -> Result<String, AllocError>
    ensures { IfOk result (λ text. string_bytes text
        ≡ compact_text (service_data source.now base orders rows)) }
{
    let mut out = Writer::new(Vec::new(alloc));
    write_service(&mut out, source, base, orders, rows)?;
    let text = String::from_utf8(out.into_inner()).unwrap();
    Ok(text)
}

/// What a database's service is, as one line.
#[tactic(auto, unfolding(crate::specs::Print::service_line))]
pub fn service_line(
    alloc: Global,
    source: &str,
    base: u64,
    orders: u64,
    rows: u64,
) -> Result<Text, AllocError>
    ensures { IfOk result (λ text. text ≡ service_line source.now base orders rows) }
{
    let mut line = service_text(alloc, source, base, orders, rows)?;
    line.push_str("\n")?;
    Ok(Text::from_string(line))
}

/// A database's inbox as JSON.
fn database_text(
    alloc: Global,
    name: &str,
    events: u64,
    sources: u64,
    version: u64,
) -> Result<String, AllocError>
    ensures { IfOk result (λ text. string_bytes text
        ≡ compact_text (database_data name.now events sources version)) }
{
    let mut out = Writer::new(Vec::new(alloc));
    out.begin_object()?;
    out.key("db")?;
    out.string(name)?;
    out.key("events")?;
    out.u64(events)?;
    out.key("sources")?;
    out.u64(sources)?;
    out.key("version")?;
    out.u64(version)?;
    out.end_object()?;
    let text = String::from_utf8(out.into_inner()).unwrap();
    Ok(text)
}

/// What the inbox of a database is, as one line.
#[tactic(auto, unfolding(crate::specs::Print::database_line))]
pub fn database_line(
    alloc: Global,
    name: &str,
    events: u64,
    sources: u64,
    version: u64,
) -> Result<Text, AllocError>
    ensures { IfOk result (λ text. text ≡ database_line name.now events sources version) }
{
    let mut line = database_text(alloc, name, events, sources, version)?;
    line.push_str("\n")?;
    Ok(Text::from_string(line))
}

/// Writes as JSON why nothing is told of a database.
fn write_trouble(out: &mut Writer, name: &str, fault: &str, hint: &str) -> Result<(), AllocError>
    ensures { OnOk result (AddsTokens out.old out.new (trouble_tokens name.now fault.now hint.now)) }
{
    out.begin_object()?;
    write_text(out, "db", name)?;
    write_text(out, "fault", fault)?;
    write_text(out, "hint", hint)?;
    out.end_object()?;
    Ok(())
}

/// Why nothing is told of a database, as JSON.
pub(crate) fn trouble_text(
    alloc: Global,
    name: &str,
    fault: &str,
    hint: &str,
) -> Result<String, AllocError>
    ensures { IfOk result (λ text. string_bytes text
        ≡ compact_text (trouble_data name.now fault.now hint.now)) }
{
    let mut out = Writer::new(Vec::new(alloc));
    write_trouble(&mut out, name, fault, hint)?;
    let text = String::from_utf8(out.into_inner()).unwrap();
    Ok(text)
}

/// The bytes given for a database's delta without one LF at their end, as `cover` prints a summary.
pub fn summary_of(bytes: &[u8]) -> &[u8]
    ensures { WithoutLineEnd bytes.now result.now }
{
    match bytes.last() {
        Some(b'\n') => &bytes[..bytes.len() - 1],
        _ => bytes,
    }
}
