use crate::command::{Command, read_command};
use crate::day::Day;
use crate::failure::Failure;
use crate::fault::Fault;
use crate::workspace::Workspace;
use std::alloc::{AllocError, Global};
use words::push_hex;

// What lasts from line to line: the day that is being read, if any, and the store, what was answered and is not yet written, and whether any line was refused or bad.
#[derive(Drop)]
pub struct Session {
    heap: Global,
    day: Option<Day>,
    workspace: Workspace,
    answers: Vec<u8>,
    failed: bool,
}

impl Session {
    pub fn new(heap: Global) -> Session {
        Session {
            heap,
            day: None,
            workspace: Workspace::new(),
            answers: Vec::new(heap),
            failed: false,
        }
    }

    pub fn has_failed(&self) -> bool {
        self.failed
    }

    pub fn answers(&self) -> &[u8] {
        self.answers.as_slice()
    }

    pub fn clear_answers(&mut self) {
        self.answers.clear();
    }

    // Takes a line: a row of the open day or its end, else a command. A line that is empty or begins with # is passed over.
    pub fn take_line(&mut self, rt: &HostRuntime, line: &[u8]) -> Result<(), Failure> {
        match line {
            [] | [b'#', ..] => Ok(()),
            _ => match self.try_line(rt, line) {
                Ok(()) => Ok(()),
                Err(fault) => self.refuse(fault),
            },
        }
    }

    // Ends the input: a day that is still open ends too.
    pub fn finish(&mut self) -> Result<(), Failure> {
        if let Some(day) = self.day.take() {
            self.end_day(day)?;
        }
        Ok(())
    }

    // Answers a line, or says why it cannot be answered.
    fn try_line(&mut self, rt: &HostRuntime, line: &[u8]) -> Result<(), Fault> {
        match self.day.take() {
            Some(day) => self.take_row(day, line),
            None => {
                let command = read_command(self.heap, line)?;
                self.run(rt, command)
            }
        }
    }

    // Takes a line of a day.
    fn take_row(&mut self, mut day: Day, line: &[u8]) -> Result<(), Fault> {
        if let b"end" = line {
            return Ok(self.end_day(day)?);
        }
        let added = day.add(self.heap, line);
        self.day = Some(day);
        Ok(added?)
    }

    // Runs a command, and answers `ok` with what it shows.
    fn run(&mut self, rt: &HostRuntime, command: Command) -> Result<(), Fault> {
        let mut shown = Vec::new(self.heap);
        match command {
            Command::Key(plan, row) => {
                let key = row.key(self.heap, &plan)?;
                return Ok(self.answer_key(key.as_slice())?);
            }
            Command::Read(key) => key.push_values(&mut shown)?,
            Command::Column { key, column, room } => key.push_value(&mut shown, column, room)?,
            Command::Day(plan) => {
                self.day = Some(Day::new(self.heap, plan));
                return Ok(());
            }
            Command::Store(command) => self.workspace.run(rt, command, &mut shown)?,
        }
        self.answer(shown.as_slice())?;
        Ok(())
    }

    // `ok` with a key.
    fn answer_key(&mut self, key: &[u8]) -> Result<(), AllocError> {
        self.answers.extend_from_slice(b"ok ")?;
        push_hex(&mut self.answers, key)?;
        self.answers.push(b'\n')?;
        Ok(())
    }

    // `ok` with what stands behind it.
    fn answer(&mut self, shown: &[u8]) -> Result<(), AllocError> {
        self.answers.extend_from_slice(b"ok")?;
        self.answers.extend_from_slice(shown)?;
        self.answers.push(b'\n')?;
        Ok(())
    }

    // The rows of a day, then `ok N`.
    fn end_day(&mut self, day: Day) -> Result<(), AllocError> {
        let count = day.push_rows(&mut self.answers)?;
        let text = format!(in self.heap; "ok {count}\n")?;
        self.answers.extend_from_slice(text.as_bytes())
    }

    // Says why a line is not answered by `ok`: want of memory is no answer, and ends the program.
    fn refuse(&mut self, fault: Fault) -> Result<(), Failure> {
        self.failed = true;
        match fault {
            Fault::Line => self.answers.extend_from_slice(b"bad line\n")?,
            Fault::State => self.answers.extend_from_slice(b"bad state\n")?,
            Fault::File => self.answers.extend_from_slice(b"bad file\n")?,
            Fault::Refused(refused) => {
                let text = format!(in self.heap; "no {refused}\n")?;
                self.answers.extend_from_slice(text.as_bytes())?;
            }
            Fault::Memory => return Err(Failure::Memory),
        }
        Ok(())
    }
}
