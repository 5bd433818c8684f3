//! Logs of format 1 of small networks, and what they come to in format 2, as an independent program
//! wrote it.
use crate::replays::replayed;
use geo_model::Network;
use log_check::replay;
use log_migrate::{MigrateAnswer, migrate};
use std::alloc::Global;
use std::test::Fail;
use test_networks::{CLOSER_LEVEL, CaseTables, TOO_REDUNDANT, TWO_LEVELS, network_of};

// What a log comes to, and None where the text is no log.
fn migrated(
    alloc: Global,
    network: &Network,
    log: &[u8],
) -> Option<Result<Vec<u8>, MigrateAnswer>> {
    match replay(alloc, network, log) {
        Ok(_) => Some(migrate(alloc, log)),
        Err(_) => None,
    }
}

// Logs, and what each comes to.
const MIGRATIONS: [(&CaseTables, &[u8], &[u8]); 7] = [
    (
        &CLOSER_LEVEL,
        b"geoplan-log 1\nx 0 1 0 1\n",
        b"geoplan-log 2\nk 0 1 0 1\nx 0\n",
    ),
    (
        &TOO_REDUNDANT,
        b"geoplan-log 1\ns 0\np 1\ns 1\np 2\np 0\n",
        b"geoplan-log 2\ns 0\np 1\ns 1\np 2\np 0\n",
    ),
    (
        &TOO_REDUNDANT,
        b"geoplan-log 1\nd 1 0\n",
        b"geoplan-log 2\nd 1 0\n",
    ),
    (
        &CLOSER_LEVEL,
        b"geoplan-log 1\ns 0\nx 0 1 0 2\nx 0 1 0 1\n",
        b"geoplan-log 2\ns 0\nk 0 1 0 2\nx 0\nk 0 1 0 1\nx 1\n",
    ),
    (
        &CLOSER_LEVEL,
        b"geoplan-log 1\ns 0\nx 0 1 0 1\nd 1 3 2 0 1 0 3 5 0 1 0 1 7 0 1 0 3\n",
        b"geoplan-log 2\ns 0\nk 0 1 0 1\nx 0\nk 0 1 0 3\nd 1 3 2 1 5 0 7 1\n",
    ),
    (
        &TWO_LEVELS,
        b"geoplan-log 1\ns 0\nd 9655953 3 50 0 1 0 2 1 0 1 0 -1 50 0 1 0 1\ns 1\nd 1 2 4 0 1 0 3 6 0 1 0 2\nx 0 1 0 -1\n",
        b"geoplan-log 2\ns 0\nk 0 1 0 2\nk 0 1 0 -1\nk 0 1 0 1\nd 9655953 3 50 0 1 1 50 2\ns 1\nk 0 1 0 3\nd 1 2 4 3 6 0\nx 1\n",
    ),
    (
        &CLOSER_LEVEL,
        b"geoplan-log 2\nk 0 1 0 2\nk 0 1 0 2\nk 0 1 0 1\nx 0\n",
        b"geoplan-log 2\nk 0 1 0 2\nk 0 1 0 2\nk 0 1 0 1\nx 0\n",
    ),
];

#[test]
fn logs_come_to_logs_of_one_tree(rt: HostRuntime) -> Result<(), Fail> {
    for (tables, log, expected) in MIGRATIONS {
        let network = network_of(rt.alloc(), tables)?;
        let made = migrated(rt.alloc(), &network, log);
        assert!(rt; matches!(&made, Some(Ok(text)) if text.as_slice() == expected));
        let before = replayed(rt.alloc(), &network, log);
        assert!(rt; before.is_ok());
        assert_eq!(rt; replayed(rt.alloc(), &network, expected), before);
    }
    Ok(())
}
