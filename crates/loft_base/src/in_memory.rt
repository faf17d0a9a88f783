//! The outside in memory.

ghost use Rattle.std.specs.Prelude.{◌≡◌, ◌⊎◌, ◌-◌, ◌+◌, ◌^◌, ◌<◌, ◌≤◌, ℕ, List, [], ◌∷◌, Some, None, true, false, ◌++◌, ◌↔◌, length, take, drop, IsTrue, IsNone, IfSome, IsOk, IsErr, IfOk, OnOk, OnErr, vec_len, vec_capacity, if◌then◌else◌};
ghost use Rattle.std.specs.Str.{bytes_eq};
ghost use Rattle.loft_base.specs.Outside.{Rose, IsPart};
ghost use Rattle.loft_base.specs.MemFiles.{contents_of, is_planned};

use crate::errors::{Failed, NoMemory};
use crate::outside::{Files, Gate, Sink, Turn};
use crate::writing::is_line;
use std::alloc::Global;
use std::collections::HashMap;
use std::sync::Wait;
use std::thread::Threads;

/// Files in memory, each with a name. Every name may be asked; one that wasn't added is a fault, and
/// so is a part that was planned to fail.
#[derive(Drop)]
pub struct MemFiles {
    files: HashMap<String, Vec<u8>>,
    faults: u64,
    place: u64,
    parts: u64,
    plan: Vec<u64>,
}

impl MemFiles {
    ghost use Rattle.loft_base.specs.MemFiles.{faults_of, place_of, parts_of, plan_of, fails_at};

    /// No files, and no fault is planned.
    pub fn new(alloc: Global) -> Result<MemFiles, NoMemory>
        ensures empty { IfOk result (λ files. (q : List ℕ) → contents_of files q ≡ None) }
        ensures unplanned { IfOk result (λ files. is_planned files ≡ false) }
        ensures no_plan { IfOk result (λ files. plan_of files ≡ []) }
        ensures no_part { IfOk result (λ files. parts_of files ≡ 0) }
        ensures no_fault { IfOk result (λ files. faults_of files ≡ 0) }
        ensures at_start { IfOk result (λ files. place_of files ≡ 0) }
    {
        Ok(MemFiles {
            files: HashMap::new(alloc),
            faults: 0,
            place: 0,
            parts: 0,
            plan: Vec::new(alloc),
        })
    }

    /// Adds a file, or replaces the earlier one of its name. Where it is out of memory the files
    /// stay.
    pub fn add(&mut self, alloc: Global, name: &str, bytes: &[u8]) -> Result<(), NoMemory>
        ensures ok { OnOk result ((q : List ℕ) → contents_of self.new q ≡
            (if bytes_eq q name.now then Some bytes.now else contents_of self.old q)) }
        ensures err { OnErr result
            ((q : List ℕ) → contents_of self.new q ≡ contents_of self.old q) }
        ensures same_plan { is_planned self.new ≡ is_planned self.old }
        ensures same_calls { plan_of self.new ≡ plan_of self.old }
        ensures same_parts { parts_of self.new ≡ parts_of self.old }
        ensures same_faults { faults_of self.new ≡ faults_of self.old }
        ensures same_place { place_of self.new ≡ place_of self.old }
    {
        let name = String::from_str(alloc, name)?;
        let bytes = Vec::from_slice(alloc, bytes)?;
        self.files.insert(name, bytes)?;
        Ok(())
    }

    /// Plans that the part of this number fails. Parts are counted from 1, from the first that these
    /// files were asked for; a plan for a part that was read already changes no answer. Where it is
    /// out of memory the plan stays.
    pub fn fail_at(&mut self, _alloc: Global, call: u64) -> Result<(), NoMemory>
        ensures ok { OnOk result (plan_of self.new ≡ plan_of self.old ++ call ∷ []) }
        ensures err { OnErr result (plan_of self.new ≡ plan_of self.old) }
        ensures same_contents { contents_of self.new ≡ contents_of self.old }
        ensures same_parts { parts_of self.new ≡ parts_of self.old }
        ensures same_faults { faults_of self.new ≡ faults_of self.old }
        ensures same_place { place_of self.new ≡ place_of self.old }
    {
        self.plan.push(call)?;
        Ok(())
    }

    /// Reads some bytes of a file that was added, where the part of the number that was counted last
    /// isn't planned to fail.
    fn read(&self, name: &str, from: u64, into: &mut [u8]) -> Option<usize>
        requires { 0 < length into.old }
        ensures planned { IsTrue (fails_at self.now (parts_of self.now)) → IsNone result }
        ensures unknown { IsNone (contents_of self.now name.now) → IsNone result }
        ensures only_then { IsNone result → IsTrue (fails_at self.now (parts_of self.now))
            ⊎ IsNone (contents_of self.now name.now) }
        ensures count { IfSome result (λ k. k ≤ length into.old) }
        ensures bytes { IfSome result (λ k. IfSome (contents_of self.now name.now)
            (λ file. IsPart file from k into.new)) }
    {
        if self.plan.contains(&self.parts) {
            return None;
        }
        let file = self.files.get(name)?;
        Some(copy_from(file.as_slice(), from, into))
    }
}

impl Files for MemFiles {
    ghost use Rattle.loft_base.specs.MemFiles.{faults_of, place_of, parts_of, next_part, plan_of, fails_at, never_fails, always_fails};
    ghost use Rattle.loft_base.specs.Outside.{IsNextPlace};

    ghost contents = { contents_of };

    ghost faults = { faults_of };

    ghost may_ask = { λ _ _. true };

    ghost place = { place_of };

    ghost never_fails = { never_fails };

    ghost always_fails = { always_fails };

    /// Reads some bytes of a file that was added. A part fails exactly where it was planned to fail
    /// or its name wasn't added.
    fn part(&mut self, name: &str, from: u64, into: &mut [u8]) -> Result<usize, Failed>
        requires room { 0 < length into.old }
        requires next { IsNextPlace from (place_of self.old) }
        requires below { from + length into.old < 2 ^ 63 }

        ensures count { IfOk result (λ k. k ≤ length into.old) }
        ensures bytes { IfOk result (λ k. IfSome (contents_of self.old name.now)
            (λ file. IsPart file from k into.new)) }
        ensures ended { IfOk result (λ k. place_of self.new ≡ from + k) }

        ensures cause { OnErr result (Rose (faults_of self.old) (faults_of self.new)) }
        ensures restarted { OnErr result (place_of self.new ≡ 0) }
        ensures never_falls { faults_of self.old ≤ faults_of self.new }

        ensures sure { IsTrue (never_fails self.old name.now) → IsOk result }
        ensures no_fault { OnOk result (faults_of self.new ≡ faults_of self.old) }
        ensures refused { IsTrue (always_fails self.old name.now) → IsErr result }

        // A part fails where it was planned to, and else only where there is no such file.
        ensures planned { IsTrue (fails_at self.old (next_part self.old)) → IsErr result }
        ensures only_then { OnErr result (IsTrue (fails_at self.old (next_part self.old))
            ⊎ IsNone (contents_of self.old name.now)) }
        ensures counted { parts_of self.new ≡ next_part self.old }

        ensures same_contents { contents_of self.new ≡ contents_of self.old }
        ensures same_plan { is_planned self.new ≡ is_planned self.old }
        ensures same_calls { plan_of self.new ≡ plan_of self.old }
        ensures same_sure { never_fails self.new ≡ never_fails self.old }
        ensures same_refused { always_fails self.new ≡ always_fails self.old }
    {
        self.parts = self.parts.saturating_add(1);
        let Some(count) = self.read(name, from, into) else {
            self.faults = self.faults.saturating_add(1);
            self.place = 0;
            return Err(Failed);
        };
        self.place = from + count as u64;
        Ok(count)
    }
}

/// Copies what fits of a file's bytes from an offset, and gives how many these are.
fn copy_from(file: &[u8], from: u64, into: &mut [u8]) -> usize
    requires { 0 < length into.old }
    ensures count { result ≤ length into.old }
    ensures part { IsPart file.now from result into.new }
{
    let Ok(start) = usize::try_from(from) else {
        return 0;
    };
    if file.len() <= start {
        return 0;
    }
    let rest = &file[start..];
    let count = rest.len().min(into.len());
    into[..count].copy_from_slice(&rest[..count]);
    count
}

/// A sink in memory, with a fixed capacity in bytes. A piece that doesn't fit is a fault that
/// appends nothing; a put that was planned to fail keeps the beginning of its piece.
#[derive(Drop)]
pub struct MemSink {
    bytes: Vec<u8>,
    capacity: usize,
    faults: u64,
    puts: usize,
    by_lines: bool,
    plan: Vec<Option<usize>>,
    ghost reserved: { capacity ≤ vec_capacity bytes },
    ghost bounded: { vec_len bytes ≤ capacity },
}

impl MemSink {
    ghost use Rattle.loft_base.specs.MemSink.{bytes_of, room_of, faults_of, puts_of, by_lines_of, next_put, plan_of, planned_keep, planned_at};

    /// An empty sink that takes `capacity` bytes; no fault is planned.
    pub fn new(alloc: Global, capacity: usize) -> Result<MemSink, NoMemory>
        ensures empty { IfOk result (λ sink. bytes_of sink ≡ []) }
        ensures room { IfOk result (λ sink. room_of sink ≡ capacity) }
        ensures no_fault { IfOk result (λ sink. faults_of sink ≡ 0) }
        ensures no_put { IfOk result (λ sink. puts_of sink ≡ 0) }
        ensures unplanned { IfOk result (λ sink. plan_of sink ≡ []) }
        ensures by_lines { IfOk result (λ sink. by_lines_of sink ≡ true) }
    {
        let bytes = Vec::with_capacity(alloc, capacity)?;
        Ok(MemSink {
            bytes,
            capacity,
            faults: 0,
            puts: 0,
            by_lines: true,
            plan: Vec::new(alloc),
        })
    }

    /// Plans that the put of this number fails and keeps the first `keep` bytes of its piece, all
    /// where it has fewer. Puts are counted from 1, from the first into this sink; a plan for a put
    /// that was made already changes nothing. The plan takes memory for each put up to that one;
    /// where it is out of memory it stays.
    pub fn fail_at(&mut self, alloc: Global, call: u64, keep: usize) -> Result<(), NoMemory>
        ensures made { call ≤ puts_of self.old → plan_of self.new ≡ plan_of self.old }
        ensures ok { OnOk result (puts_of self.old < call
            → plan_of self.new ≡ planned_at (plan_of self.old) (call - next_put self.old) keep) }
        ensures err { OnErr result (plan_of self.new ≡ plan_of self.old) }
        ensures same_bytes { bytes_of self.new ≡ bytes_of self.old }
        ensures same_room { room_of self.new ≡ room_of self.old }
        ensures same_puts { puts_of self.new ≡ puts_of self.old }
        ensures same_faults { faults_of self.new ≡ faults_of self.old }
        ensures same_lines { by_lines_of self.new ≡ by_lines_of self.old }
    {
        let Ok(call) = usize::try_from(call) else {
            return Err(NoMemory);
        };
        if call <= self.puts {
            return Ok(());
        }
        let missing = vec![in alloc; None; call.saturating_sub(self.plan.len())]?;
        self.plan.extend_from_slice(missing.as_slice())?;
        self.plan[call - 1] = Some(keep);
        Ok(())
    }

    /// All bytes written so far.
    pub fn bytes(&self) -> &[u8]
        ensures { result.now ≡ bytes_of self.now }
    {
        self.bytes.as_slice()
    }

    /// Whether each piece that it took whole was a line.
    pub fn by_lines(&self) -> bool
        ensures { result ≡ by_lines_of self.now }
    {
        self.by_lines
    }

    /// Counts a put, and gives how many bytes of its piece it keeps, where it is planned to fail.
    fn next_plan(&mut self) -> Option<usize>
        ensures planned { result ≡ planned_keep self.old }
        ensures plan { plan_of self.new ≡ drop 1 (plan_of self.old) }
        ensures counted { puts_of self.new ≡ next_put self.old }
        ensures same_bytes { self.new.bytes ≡ self.old.bytes }
        ensures same_capacity { self.new.capacity ≡ self.old.capacity }
        ensures same_lines { self.new.by_lines ≡ self.old.by_lines }
        ensures same_faults { faults_of self.new ≡ faults_of self.old }
    {
        let plan = self.plan.get(self.puts).copied().flatten();
        self.puts = self.puts.saturating_add(1);
        plan
    }

    /// Counts a fault.
    fn fault(&mut self) -> Result<(), Failed>
        ensures failed { IsErr result }
        ensures cause { Rose (faults_of self.old) (faults_of self.new) }
        ensures never_falls { faults_of self.old ≤ faults_of self.new }
        ensures same_bytes { self.new.bytes ≡ self.old.bytes }
        ensures same_capacity { self.new.capacity ≡ self.old.capacity }
        ensures same_lines { self.new.by_lines ≡ self.old.by_lines }
        ensures same_puts { puts_of self.new ≡ puts_of self.old }
        ensures same_plan { plan_of self.new ≡ plan_of self.old }
    {
        self.faults = self.faults.saturating_add(1);
        Err(Failed)
    }
}

impl Sink for MemSink {
    ghost use Rattle.std.specs.Prelude.{IfNone, ◌&&◌};
    ghost use Rattle.loft_base.specs.Outside.{GrowsByPrefix, is_line};
    ghost use Rattle.loft_base.specs.MemSink.{bytes_of, room_of, faults_of, puts_of, by_lines_of, next_put, plan_of, planned_keep, known_room};

    ghost written = { λ sink. Some (bytes_of sink) };

    ghost faults = { faults_of };

    ghost room = { known_room };

    ghost by_lines = { by_lines_of };

    /// Appends a piece exactly where it fits and no fault is planned for it. Else it is a fault: a
    /// piece that doesn't fit appends nothing, and one that is planned to fail its beginning.
    fn put(&mut self, bytes: &[u8]) -> Result<(), Failed>
        requires { 0 < length bytes.now }

        ensures fits { IsOk result ↔
            (IsNone (planned_keep self.old) × (length bytes.now ≤ room_of self.old)) }
        ensures ok { OnOk result (bytes_of self.new ≡ bytes_of self.old ++ bytes.now) }
        ensures room_left { OnOk result (room_of self.new + length bytes.now ≡ room_of self.old) }

        // A fault appends a prefix, and nothing where no fault is planned.
        ensures prefix { OnErr result
            (GrowsByPrefix (Some (bytes_of self.old)) (Some (bytes_of self.new)) bytes.now) }
        ensures failed { OnErr result
            (IfNone (planned_keep self.old) (bytes_of self.new ≡ bytes_of self.old)) }
        ensures same_room { OnErr result
            (IfNone (planned_keep self.old) (room_of self.new ≡ room_of self.old)) }
        ensures plan { plan_of self.new ≡ drop 1 (plan_of self.old) }

        // A piece that fits and is planned to fail keeps as many bytes as were planned.
        ensures kept { IfSome (planned_keep self.old) (λ keep. length bytes.now ≤ room_of self.old
            → bytes_of self.new ≡ bytes_of self.old ++ take keep bytes.now) }
        ensures no_room { room_of self.old < length bytes.now → bytes_of self.new ≡ bytes_of self.old }
        ensures counted { puts_of self.new ≡ next_put self.old }

        ensures no_fault { OnOk result (faults_of self.new ≡ faults_of self.old) }
        ensures cause { OnErr result (Rose (faults_of self.old) (faults_of self.new)) }
        ensures never_falls { faults_of self.old ≤ faults_of self.new }

        ensures by_lines { OnOk result (by_lines_of self.new ≡ (by_lines_of self.old && is_line bytes.now)) }
        ensures same_lines { OnErr result (by_lines_of self.new ≡ by_lines_of self.old) }
    {
        let planned = self.next_plan();
        if self.capacity - self.bytes.len() < bytes.len() {
            return self.fault();
        }
        let Some(keep) = planned else {
            self.by_lines &= is_line(bytes);
            self.bytes.extend_from_slice(bytes).unwrap();
            return Ok(());
        };
        let count = keep.min(bytes.len());
        self.bytes.extend_from_slice(&bytes[..count]).unwrap();
        self.fault()
    }
}

/// A gate that is always open.
#[derive(Clone, Copy)]
pub struct OpenGate;

impl Gate for OpenGate {
    fn pass<R: Threads + Wait + Sync>(&self, _rt: &R, _t: Turn) {}
}
