//! Reading the files of a command, and what they give.
ghost use Rattle.std.specs.Prelude.{◌≡◌, ◌≤◌, ℕ, List, All, IfOk, OnOk, IfErr, length, option_map};
ghost use Rattle.geo_model.specs.Network.{IsNetwork};
ghost use Rattle.point_tables.specs.Accepted.{IsAccepted};
ghost use Rattle.candidate_tables.specs.Accepted.{AreCandidates};
ghost use Rattle.geoplan.specs.CommandOf.{file_of};
ghost use Rattle.geoplan.specs.CommandView.{sources_view, command_view};
ghost use Rattle.geoplan.specs.Input.{accepted_input, built_input, equipped};
ghost use Rattle.geoplan.specs.Loading.{IsGoodNetwork, IsRefusal, ReadsStations, RefusesStations, judged_bytes, ReadsFile, FailsRead, ReadsAll, more_read, FailsMore, ReadsTables, ReadsStationBytes, FailsStations, ReadsTableBytes, LoadsTables, FailsLoad};
ghost use Rattle.geoplan.specs.Parts.{log_file};

use crate::command::Command;
use crate::file_kind::FileKind;
use crate::judge_fault::JudgeFault;
use crate::log_parts::LogParts;
use crate::refused_table::RefusedTable;
use crate::sources::Sources;
use crate::table_bytes::TableBytes;
use crate::tables::Tables;
use candidate_tables::{Candidates, read_candidates};
use geo_base::NoMemory;
use geo_model::Network;
use net_build::build;
use point_tables::{Points, read_points};
use shelf_io::{ReadAnswer, Shelf};
use station_tables::{Stations, read_stations, stations_of};
use std::alloc::Global;

/// Why the files of a command were not loaded: the one of this name is too long, or could not be read,
/// or a table or the network of both is refused, or memory ran out.
#[derive(Clone, Copy)]
pub enum LoadFault<'a> {
    TooLong(&'a str),
    Unread(&'a str),
    Refused(RefusedTable),
    NoMemory,
}

/// The bytes of a file.
pub fn read_file<'a, H: Shelf>(
    alloc: Global,
    sources: &Sources<'a>,
    kind: FileKind,
    shelf: &mut H,
) -> Result<Vec<u8>, LoadFault<'a>>
    ensures read { IfOk result (λ bytes. ReadsFile (file_of (sources_view sources.now) kind) bytes.items
        (H.state shelf.old) (H.state shelf.new)) }
    ensures fault { IfErr result (λ why. FailsRead (file_of (sources_view sources.now) kind) why
        (H.state shelf.old) (H.state shelf.new)) }
{
    let name = sources.name(kind);
    let mut bytes = Vec::new(alloc);
    match shelf.read_whole(name, kind.most_bytes(), &mut bytes) {
        Ok(()) => Ok(bytes),
        Err(ReadAnswer::TooLong) => Err(LoadFault::TooLong(name)),
        Err(ReadAnswer::Failed) => Err(LoadFault::Unread(name)),
        Err(ReadAnswer::NoMemory) => Err(LoadFault::NoMemory),
    }
}

/// Reads a log to its end, and keeps nothing of it.
fn skip_log<'a, H: Shelf>(alloc: Global, shelf: &mut H, log: &'a str) -> Result<(), LoadFault<'a>>
    ensures read { OnOk result ((text : List ℕ) × ReadsFile (log_file log.entry.now) text (H.state shelf.old) (H.state shelf.new)) }
    ensures fault { IfErr result (λ why. FailsRead (log_file log.entry.now) why (H.state shelf.old) (H.state shelf.new)) }
{
    let mut parts = match LogParts::new(alloc, log) {
        Ok(parts) => parts,
        Err(NoMemory) => return Err(LoadFault::NoMemory),
    };
    'parts: while parts.read_next(shelf)? {}
    Ok(())
}

/// Reads the files after the tables, and keeps nothing of them.
fn skip_more<'a, H: Shelf>(
    alloc: Global,
    command: &Command<'a>,
    shelf: &mut H,
) -> Result<(), LoadFault<'a>>
    ensures read { OnOk result (ReadsAll (more_read (command_view command.now)) (H.state shelf.old) (H.state shelf.new)) }
    ensures fault { IfErr result (λ why. FailsMore (command_view command.now) why (H.state shelf.old) (H.state shelf.new)) }
{
    match command.verb.read_after_tables() {
        None => Ok(()),
        Some(FileKind::Log) => skip_log(alloc, shelf, command.sources.log),
        Some(kind) => match read_file(alloc, &command.sources, kind, shelf) {
            Ok(_) => Ok(()),
            Err(why) => Err(why),
        },
    }
}

/// The bytes of the table of stations of a command, where one is given.
fn read_station_bytes<'a, H: Shelf>(
    alloc: Global,
    sources: &Sources<'a>,
    shelf: &mut H,
) -> Result<Option<Vec<u8>>, LoadFault<'a>>
    ensures read { IfOk result (λ bytes. ReadsStationBytes (sources_view sources.now) (option_map (λ given. given.items) bytes)
        (H.state shelf.old) (H.state shelf.new)) }
    ensures fault { IfErr result (λ why. FailsStations (sources_view sources.now) why (H.state shelf.old) (H.state shelf.new)) }
{
    if sources.stations.is_none() {
        return Ok(None);
    }
    match read_file(alloc, sources, FileKind::Stations, shelf) {
        Ok(stations) => Ok(Some(stations)),
        Err(why) => Err(why),
    }
}

/// The bytes of the tables of a command, which are read in their order. The command reads tables.
fn read_tables<'a, H: Shelf>(
    alloc: Global,
    command: &Command<'a>,
    shelf: &mut H,
) -> Result<TableBytes, LoadFault<'a>>
    requires { ReadsTables command.now.verb }
    ensures read { IfOk result (λ bytes. ReadsTableBytes (command_view command.now) bytes
        (H.state shelf.old) (H.state shelf.new)) }
    ensures fault { IfErr result (λ why. FailsLoad (command_view command.now) why
        (H.state shelf.old) (H.state shelf.new)) }
{
    let sources = &command.sources;
    let points = match read_file(alloc, sources, FileKind::Points, shelf) {
        Ok(points) => points,
        Err(why) => return Err(why),
    };
    let candidates = match read_file(alloc, sources, FileKind::Candidates, shelf) {
        Ok(candidates) => candidates,
        Err(why) => return Err(why),
    };
    match read_station_bytes(alloc, sources, shelf) {
        Ok(stations) => Ok(TableBytes::new(points, candidates, stations)),
        Err(why) => Err(why),
    }
}

/// A network of these points and candidates with the stations of a table, where one is given.
fn equip(
    alloc: Global,
    network: Network,
    points: &Points,
    candidates: &Candidates,
    stations: Option<Stations>,
) -> Result<Network, NoMemory>
    requires long { length network.candidates ≡ length candidates.now }
    requires accepted { AreCandidates points.now candidates.now }
    ensures equipped { IfOk result (λ made. made ≡ equipped network points.now candidates.now stations) }
    ensures bounds { IfOk result IsNetwork }
{
    let mut network = network;
    if let Some(stations) = stations {
        let (of_candidates, prices) = stations_of(alloc, points, candidates, &stations)?;
        network.set_stations(of_candidates, prices);
    }
    let _bounds = network.candidates();
    Ok(network)
}

/// What accepted tables give for a redundancy of at most 999.
#[tactic(auto, unfolding(crate::specs::Input::accepted_input))]
fn accept(
    alloc: Global,
    redundancy: u32,
    points: Points,
    candidates: Candidates,
    stations: Option<Stations>,
) -> Result<Tables, JudgeFault>
    requires redundancy { redundancy ≤ 999 }
    requires points { All IsAccepted points }
    requires accepted { AreCandidates points candidates }
    ensures tables { IfOk result (λ tables. accepted_input redundancy points candidates stations ≡ built_input tables) }
    ensures good { IfOk result IsGoodNetwork }
    ensures refused { IfErr result (IsRefusal (accepted_input redundancy points candidates stations)) }
{
    let network = match build(alloc, &points, &candidates, redundancy) {
        Ok(network) => network,
        Err(why) => return Err(JudgeFault::of_table(why)),
    };
    match equip(alloc, network, &points, &candidates, stations) {
        Ok(network) => Ok(Tables::new(points, candidates, redundancy, network)),
        Err(NoMemory) => Err(JudgeFault::NoMemory),
    }
}

/// The stations of a table, where one is given.
fn read_given(
    alloc: Global,
    bytes: Option<&[u8]>,
    points: &Points,
) -> Result<Option<Stations>, JudgeFault>
    ensures read { IfOk result (λ stations. ReadsStations points.now (option_map (λ given. given.now) bytes.entry) stations) }
    ensures refused { IfErr result (RefusesStations points.now (option_map (λ given. given.now) bytes.entry)) }
{
    let Some(bytes) = bytes else {
        return Ok(None);
    };
    match read_stations(alloc, bytes, points) {
        Ok(stations) => Ok(Some(stations)),
        Err(why) => Err(JudgeFault::of_stations(why)),
    }
}

/// What the bytes of tables give for a redundancy of at most 999.
#[tactic(auto, unfolding(crate::specs::Loading::tables_input))]
fn judge(alloc: Global, redundancy: u32, bytes: &TableBytes) -> Result<Tables, JudgeFault>
    requires { redundancy ≤ 999 }
    ensures tables { IfOk result (λ tables. judged_bytes redundancy bytes.now ≡ built_input tables) }
    ensures good { IfOk result IsGoodNetwork }
    ensures refused { IfErr result (IsRefusal (judged_bytes redundancy bytes.now)) }
{
    let points = match read_points(alloc, bytes.points()) {
        Ok(points) => points,
        Err(why) => return Err(JudgeFault::of_table(why)),
    };
    let candidates = match read_candidates(alloc, bytes.candidates(), &points) {
        Ok(candidates) => candidates,
        Err(why) => return Err(JudgeFault::of_table(why)),
    };
    let stations = match read_given(alloc, bytes.stations(), &points) {
        Ok(stations) => stations,
        Err(why) => return Err(why),
    };
    accept(alloc, redundancy, points, candidates, stations)
}

/// Reads the tables of a command in their order, and judges what they give. Where they are refused, the
/// files after them were read too, since one of them may be what is refused. The command reads tables,
/// and its redundancy is at most 999.
pub fn load<'a, H: Shelf>(
    alloc: Global,
    command: &Command<'a>,
    shelf: &mut H,
) -> Result<Tables, LoadFault<'a>>
    requires redundancy { command.now.sources.redundancy ≤ 999 }
    requires tables { ReadsTables command.now.verb }
    ensures loaded { IfOk result (λ tables. LoadsTables (command_view command.now) tables
        (H.state shelf.old) (H.state shelf.new)) }
    ensures fault { IfErr result (λ why. FailsLoad (command_view command.now) why
        (H.state shelf.old) (H.state shelf.new)) }
{
    let bytes = match read_tables(alloc, command, shelf) {
        Ok(bytes) => bytes,
        Err(why) => return Err(why),
    };
    let why = match judge(alloc, command.sources.redundancy, &bytes) {
        Ok(tables) => return Ok(tables),
        Err(why) => why,
    };
    let Some(refused) = RefusedTable::judged(why) else {
        return Err(LoadFault::NoMemory);
    };
    match skip_more(alloc, command, shelf) {
        Ok(()) => Err(LoadFault::Refused(refused)),
        Err(why) => Err(why),
    }
}
