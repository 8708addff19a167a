use std::alloc::{AllocError, Global};

/// At which gate the workers of a row's run are held.
#[derive(Drop, Clone, Copy)]
pub enum GateKind {
    /// At none.
    Open,
    /// Whoever of two passes first waits for the other.
    Both,
    /// One of two waits for events of the other.
    Held,
    /// One of two holds parts that the events of the other don't touch.
    Disjoint,
}

/// A row: the words, the script, how many bytes the devices give and take at most at once, which of their calls fail, how
/// far the clock rises at each look, whether it is slow and its askings are told, at which gate the workers are held, how
/// often the script is run, whether it is cut after each of its bytes, and whether the journals of its runs are judged.
#[derive(Drop)]
pub struct Row {
    pub words: Vec<String>,
    pub script: Vec<u8>,
    pub piece: usize,
    pub reads: Vec<u64>,
    pub writes: Vec<u64>,
    pub waits: Vec<u64>,
    pub rise: u64,
    pub is_slow: bool,
    pub tells_askings: bool,
    pub gate: GateKind,
    pub runs: u64,
    pub is_cut: bool,
    pub is_judged: bool,
}

impl Row {
    /// The row that the line tells.
    pub fn of(alloc: Global, line: &str) -> Result<Row, AllocError> {
        let (head, script) = line.split_once(": ").unwrap_or((line, ""));
        let mut row = Row {
            words: Vec::new(alloc),
            script: script_of(alloc, script)?,
            piece: 4096,
            reads: Vec::new(alloc),
            writes: Vec::new(alloc),
            waits: Vec::new(alloc),
            rise: 0,
            is_slow: false,
            tells_askings: false,
            gate: GateKind::Open,
            runs: 1,
            is_cut: false,
            is_judged: true,
        };
        for word in head.split(' ') {
            row.add(alloc, word)?;
        }
        Ok(row)
    }

    // Takes a word, or what it says of the devices.
    fn add(&mut self, alloc: Global, word: &str) -> Result<(), AllocError> {
        if word.is_empty() || word == ":" {
            return Ok(());
        }
        match word.split_once("=") {
            Some(("piece", number)) => self.piece = number.parse().unwrap_or(1),
            Some(("read", number)) => self.reads.push(number.parse().unwrap_or(0))?,
            Some(("write", number)) => self.writes.push(number.parse().unwrap_or(0))?,
            Some(("wait", number)) => self.waits.push(number.parse().unwrap_or(0))?,
            Some(("rise", number)) => self.rise = number.parse().unwrap_or(0),
            Some(("gate", name)) => self.gate = gate_named(name),
            Some(("runs", number)) => self.runs = number.parse().unwrap_or(1),
            Some(("spaces", number)) => self.add_spaces(number.parse().unwrap_or(0))?,
            None if word == "slow" => self.is_slow = true,
            None if word == "askings" => self.tells_askings = true,
            None if word == "cuts" => self.is_cut = true,
            None if word == "unjudged" => self.is_judged = false,
            _ => self.words.push(String::from_str(alloc, word)?)?,
        }
        Ok(())
    }

    // Adds so many spaces to the script.
    fn add_spaces(&mut self, count: usize) -> Result<(), AllocError> {
        let length = self.script.len().saturating_add(count);
        self.script.resize(length, b' ')
    }
}

fn gate_named(name: &str) -> GateKind {
    match name {
        "both" => GateKind::Both,
        "held" => GateKind::Held,
        "disjoint" => GateKind::Disjoint,
        _ => GateKind::Open,
    }
}

// The script's bytes, each `|` a line feed.
fn script_of(alloc: Global, script: &str) -> Result<Vec<u8>, AllocError> {
    let mut bytes = Vec::new(alloc);
    for byte in script.as_bytes() {
        bytes.push(if *byte == b'|' { b'\n' } else { *byte })?;
    }
    Ok(bytes)
}
