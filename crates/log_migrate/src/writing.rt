//! The lines of a log of format 1, written in format 2.
ghost use Rattle.std.specs.Prelude.{List};
ghost use Rattle.bound_log.specs.declared.log_line.LogLine.{LogLine as LineOf};
ghost use Rattle.log_migrate.specs.NewLog.{AreLines, Writes};

use crate::answer::MigrateAnswer;
use crate::new_log::NewLog;
use bound_log::read_line;
use lent_parts::LineWalk;
use std::alloc::Global;

/// The log of format 2 with these lines, which are those of a log of format 1 after its first one.
pub fn write_log(alloc: Global, lines: LineWalk<'_>) -> Result<NewLog, MigrateAnswer>
    requires { (nodes : List LineOf) × AreLines nodes lines }
    ensures { (nodes : List LineOf) → AreLines nodes lines.entry → Writes nodes result }
{
    let mut lines = lines;
    let mut made = NewLog::new(alloc)?;
    'lines: while let Some(line) = lines.next() {
        match read_line(line.text) {
            Some(read) => match made.add(alloc, &read) {
                Ok(()) => {}
                Err(why) => return Err(why),
            },
            None => unreachable!(),
        }
    }
    Ok(made)
}
