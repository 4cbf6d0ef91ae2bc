//! A job: a script under way.
//!
//! 1. A turn is one line of the script, or one further portion of the rows that the line at hand scans.
//! 2. Room for a line's answer and its table is made before the engine is touched.
//! 3. A job that ran out of memory has taken its transaction back, and has ended.
//! 4. The image that a kernel's line has made is kept until its transaction writes or is over.
//! 5. Where several readers scan the rows of a kernel, its line takes one turn.

ghost use Rattle.std.specs.Prelude.{◌≡◌, ◌<◌, ◌≤◌, ℕ, List, [], ◌∷◌, ◌++◌, ◌&&◌, true, false, length, slice_set, None, IsSome, IfSome, IfNone, OnOk, OnErr};
ghost use Rattle.run_model.specs.declared.command.Command.{Command};
ghost use Rattle.run_model.specs.declared.command.Command.TheVariants.{Abort, Run};
ghost use Rattle.run_model.specs.declared.command.Kernel.{Kernel};
ghost use Rattle.line_runner.specs.Phases.{is_open};
ghost use Rattle.line_runner.specs.Turns.{is_call, calls, WantsOn};
ghost use Rattle.graph_model.specs.OwnerCalls.{account_here};
ghost use Rattle.job_runner.specs.declared.turn.JobTurn.TheVariants as turns;
ghost use Rattle.job_runner.specs.Progress.{new_progress, left_of, is_over, listed_table, gone, has_given_up, replays_on, runs_kernel, EndsTurnOn, GivesUpOn, IsReady, IsReadyBy, IsRolledBack, Replays, TakesTurnInParts, TakesTurnOn, TookInParts, TookTurn, TookTurnOn};

use crate::turn::JobTurn;
use graph_model::{Engine, NoMemory, StepEngine, VertexEngine};
use items::RoomyItems;
use line_runner::{
    KeptImage, LineAnswer, LineReading, LineTurn, NamedTable, Phase, Tables, answer_call, is_call,
    run_at_once, take_line,
};
use part_scan::PartScan;
use run_model::{Answer, Command, Script};
use std::alloc::Global;
use std::marker::Model;
use std::mem::replace;
use std::thread::Threads;

/// A script under way, with its answers so far.
#[derive(Drop)]
pub struct Job {
    alloc: Global,
    /// The number of the script, from 1.
    number: u32,
    /// Its lines.
    script: Script,
    /// One for each line that was taken.
    answers: RoomyItems<Answer>,
    /// Those of its kernel lines so far.
    tables: Tables,
    /// Where it stands between its lines.
    phase: Phase,
    /// How far the line at hand has come, if it has taken a turn.
    reading: Option<LineReading>,
    /// Of what the open transaction sees, if a line has made one.
    image: Option<KeptImage>,
}

impl Model for Job {
    ghost use Rattle.job_runner.specs.Progress.{Progress};

    ghost Value = { Progress };

    ghost view = { λ j. record {
      number = j.number;
      commands = j.script;
      answers = j.answers.items;
      tables = j.tables.items;
      phase = j.phase;
      reading = j.reading;
      image = j.image;
    } };
}

impl Job {
    /// A script of this number, of which no line is answered. Takes no memory.
    pub fn new(alloc: Global, job: u32, script: Script) -> Job
        ensures { result ≡ new_progress job script }
    {
        Job {
            alloc,
            number: job,
            script,
            answers: RoomyItems::new(alloc),
            tables: RoomyItems::new(alloc),
            phase: Phase::Between,
            reading: None,
            image: None,
        }
    }

    /// The number of the script.
    pub fn number(&self) -> u32
        ensures { result ≡ self.now.number }
    {
        self.number
    }

    /// Lends the answers so far, in the order of the lines.
    pub fn answers(&self) -> &[Answer]
        ensures { result.now ≡ self.now.answers }
    {
        self.answers.as_slice()
    }

    /// Lends the tables so far, in the order of the lines.
    pub fn tables(&self) -> &[NamedTable]
        ensures { result.now ≡ self.now.tables }
    {
        self.tables.as_slice()
    }

    /// How many lines the script has.
    pub fn lines(&self) -> usize
        ensures { result ≡ length self.now.commands }
    {
        self.script.len()
    }

    /// Whether memory ran out.
    pub fn has_given_up(&self) -> bool
        ensures { result ≡ has_given_up self.now.phase }
    {
        self.phase == Phase::GivenUp
    }

    /// Whether each line is answered, or memory ran out.
    pub fn has_ended(&self) -> bool
        ensures { result ≡ is_over self.now }
    {
        match self.phase {
            Phase::GivenUp => true,
            _ => self.script.len() <= self.answers.len(),
        }
    }

    /// Lends the line at hand, if there is one.
    pub fn next_command(&self) -> Option<&Command>
        ensures some { IfSome result (λ c. (rest : List Command) × (left_of self.now ≡ c.now ∷ rest)) }
        ensures none { IfNone result (is_over self.now ≡ true) }
        ensures going { IsSome result → is_over self.now ≡ false }
    {
        if self.has_ended() {
            return None;
        }
        self.script.as_slice().get(self.answers.len())
    }

    /// Has the line at hand abort its transaction, whatever it was to do. Takes no memory.
    pub fn abort_instead(&mut self)
        requires { is_over self.old ≡ false }
        ensures { self.new ≡ record self.old {
          commands = slice_set self.old.commands (length self.old.answers) Abort;
        } }
    {
        let place = self.answers.len();
        self.script.set(place, Command::Abort);
    }

    /// Gives another answer to a line that was answered. Takes no memory.
    pub fn answer_instead(&mut self, place: usize, answer: Answer)
        requires { place < length self.old.answers }
        ensures { self.new ≡ record self.old { answers = slice_set self.old.answers place answer } }
    {
        // The list takes no other answer in place while its room is counted, so it is one without that count
        // meanwhile.
        let mut answers = replace(&mut self.answers, RoomyItems::new(self.alloc)).into_items();
        answers.set(place, answer);
        self.answers = RoomyItems::from_items(answers);
    }

    /// Takes one turn: a line, or a further portion of the rows that the line at hand scans.
    pub fn turn<R: Threads + Sync, E: VertexEngine>(&mut self, rt: &R, engine: &mut E) -> JobTurn
        requires going { is_over self.old ≡ false }
        requires ready { IsReadyBy (E.account engine.old) self.old }
        ensures took { let e = calls E.account E.did_begin E.did_write E.did_read E.did_commit E.did_abort in
            TookTurnOn e engine.old self.old result self.new engine.new }
        ensures rolled_back { result ≡ turns.NoMemory → IsRolledBack self.old self.new (E.account engine.new) }
    {
        let took = self.take_turn(rt, engine);
        self.end_turn(engine, took)
    }

    /// Takes one turn as `turn` does, but that the line of a kernel takes one turn in all: so many readers scan its
    /// rows at once.
    pub fn turn_parts<R: Threads + Sync, E: VertexEngine + PartScan>(
        &mut self,
        rt: &R,
        engine: &mut E,
        parts: u32,
    ) -> JobTurn
        requires going { is_over self.old ≡ false }
        requires ready { IsReadyBy (E.account engine.old) self.old }
        requires parts { (0 < parts) × (parts ≤ 32) }
        ensures took { let e = calls E.account E.did_begin E.did_write E.did_read E.did_commit E.did_abort in
            TookInParts e engine.old self.old result self.new engine.new }
        ensures rolled_back { result ≡ turns.NoMemory → IsRolledBack self.old self.new (E.account engine.new) }
    {
        let took = self.take_in_parts(rt, engine, parts);
        self.end_turn(engine, took)
    }

    /// Takes one turn on an engine of one owner.
    pub fn turn_alone<R: Threads + Sync, E: StepEngine>(
        &mut self,
        rt: &R,
        engine: &mut E,
    ) -> JobTurn
        requires going { is_over self.old ≡ false }
        requires ready { IsReady (E.core engine.old) self.old }
        ensures took { TookTurn (E.core engine.old) self.old result self.new (E.core engine.new) }
        ensures rolled_back { result ≡ turns.NoMemory
            → IsRolledBack self.old self.new (account_here (E.core engine.new)) }
    {
        self.turn(rt, engine)
    }

    /// Takes the turn, if there is memory.
    fn take_turn<R: Threads + Sync, E: VertexEngine>(
        &mut self,
        rt: &R,
        engine: &mut E,
    ) -> Result<(), NoMemory>
        requires going { is_over self.old ≡ false }
        requires ready { IsReadyBy (E.account engine.old) self.old }
        ensures ok { let e = calls E.account E.did_begin E.did_write E.did_read E.did_commit E.did_abort in
            OnOk result ((c : Command) (rest : List Command) → left_of self.old ≡ c ∷ rest
            → TakesTurnOn e engine.old self.old c self.new engine.new) }
        ensures err { let e = calls E.account E.did_begin E.did_write E.did_read E.did_commit E.did_abort in
            OnErr result (WantsOn e engine.old engine.new
            × (self.new ≡ record self.old { reading = None; image = None })) }
    {
        // Most lines read no rows, and most turns of a kernel's line on an image that is kept only count. Such a turn
        // moves neither what was read nor an image, which are long.
        if self.is_at_call() {
            self.answer_line(engine)
        } else if self.replay_on() {
            Ok(())
        } else {
            self.read_on(rt, engine)
        }
    }

    /// Takes a turn on the image that is kept for the line at hand, where it isn't its last one, and answers whether it
    /// did.
    fn replay_on(&mut self) -> bool
        ensures left { result ≡ replays_on self.old.phase self.old.reading }
        ensures replays { result ≡ true → Replays self.old self.new }
        ensures same { result ≡ false → self.new ≡ self.old }
    {
        let Phase::Open = self.phase else {
            return false;
        };
        let Some(reading) = &mut self.reading else {
            return false;
        };
        reading.replay_on()
    }

    /// Whether the line at hand reads no rows, and nothing is kept that was read.
    fn is_at_call(&self) -> bool
        requires { is_over self.now ≡ false }
        ensures none { result ≡ true → (self.now.reading ≡ None) × (self.now.image ≡ None) }
        ensures call { result ≡ true
            → (c : Command) (rest : List Command) → left_of self.now ≡ c ∷ rest → is_call c ≡ true }
    {
        if self.reading.is_some() || self.image.is_some() {
            return false;
        }
        match self.next_command() {
            Some(command) => is_call(command),
            None => unreachable!(),
        }
    }

    /// Answers the line at hand, which reads no rows, if there is memory.
    fn answer_line<E: VertexEngine>(&mut self, engine: &mut E) -> Result<(), NoMemory>
        requires going { is_over self.old ≡ false }
        requires ready { IsReadyBy (E.account engine.old) self.old }
        requires none { (self.old.reading ≡ None) × (self.old.image ≡ None) }
        requires call { (c : Command) (rest : List Command) → left_of self.old ≡ c ∷ rest → is_call c ≡ true }
        ensures ok { let e = calls E.account E.did_begin E.did_write E.did_read E.did_commit E.did_abort in
            OnOk result ((c : Command) (rest : List Command) → left_of self.old ≡ c ∷ rest
            → TakesTurnOn e engine.old self.old c self.new engine.new) }
        ensures err { let e = calls E.account E.did_begin E.did_write E.did_read E.did_commit E.did_abort in
            OnErr result (WantsOn e engine.old engine.new
            × (self.new ≡ record self.old { reading = None; image = None })) }
    {
        // Before the engine is called, as for any line.
        self.answers.reserve(1)?;
        self.tables.reserve(1)?;
        let command = &self.script.as_slice()[self.answers.len()];
        let given = answer_call(engine, command, self.phase)?;
        self.phase = push_answer(&mut self.answers, &mut self.tables, given);
        Ok(())
    }

    /// Takes the turn of a line that may read rows, if there is memory.
    fn read_on<R: Threads + Sync, E: VertexEngine>(
        &mut self,
        rt: &R,
        engine: &mut E,
    ) -> Result<(), NoMemory>
        requires going { is_over self.old ≡ false }
        requires ready { IsReadyBy (E.account engine.old) self.old }
        ensures ok { let e = calls E.account E.did_begin E.did_write E.did_read E.did_commit E.did_abort in
            OnOk result ((c : Command) (rest : List Command) → left_of self.old ≡ c ∷ rest
            → TakesTurnOn e engine.old self.old c self.new engine.new) }
        ensures err { let e = calls E.account E.did_begin E.did_write E.did_read E.did_commit E.did_abort in
            OnErr result (WantsOn e engine.old engine.new
            × (self.new ≡ record self.old { reading = None; image = None })) }
    {
        let reading = self.reading.take();
        let mut image = self.image.take();
        // Room for the answer and the table comes before the line calls the engine: what the engine has done is never
        // left without its answer.
        self.answers.reserve(1)?;
        self.tables.reserve(1)?;
        let command = &self.script.as_slice()[self.answers.len()];
        let phase = self.phase;
        match take_line(rt, self.alloc, engine, command, phase, reading, &mut image)? {
            LineTurn::Scanning { reading } => {
                self.keep(Some(reading), image);
                Ok(())
            }
            LineTurn::Answering { given } => {
                // The image of the rows stays for the transaction's next kernel, unless this line has written or ended
                // it.
                let image = given.kept_behind(phase, image);
                self.phase = push_answer(&mut self.answers, &mut self.tables, given);
                self.keep(None, image);
                Ok(())
            }
        }
    }

    /// Takes the turn, where so many readers scan the rows of a kernel, if there is memory.
    fn take_in_parts<R: Threads + Sync, E: VertexEngine + PartScan>(
        &mut self,
        rt: &R,
        engine: &mut E,
        parts: u32,
    ) -> Result<(), NoMemory>
        requires going { is_over self.old ≡ false }
        requires ready { IsReadyBy (E.account engine.old) self.old }
        requires parts { (0 < parts) × (parts ≤ 32) }
        ensures ok { let e = calls E.account E.did_begin E.did_write E.did_read E.did_commit E.did_abort in
            OnOk result ((c : Command) (rest : List Command) → left_of self.old ≡ c ∷ rest
            → TakesTurnInParts e engine.old self.old c self.new engine.new) }
        ensures err { let e = calls E.account E.did_begin E.did_write E.did_read E.did_commit E.did_abort in
            OnErr result (WantsOn e engine.old engine.new
            × (self.new ≡ record self.old { reading = None; image = None })) }
    {
        if self.is_at_kernel() {
            self.run_kernel(rt, engine, parts)
        } else {
            self.take_turn(rt, engine)
        }
    }

    /// Whether the line at hand runs a kernel in an open transaction.
    fn is_at_kernel(&self) -> bool
        requires { is_over self.now ≡ false }
        ensures { (c : Command) (rest : List Command) → left_of self.now ≡ c ∷ rest
            → result ≡ (is_open self.now.phase && runs_kernel c) }
    {
        match self.next_command() {
            Some(command) => self.phase == Phase::Open && runs_kernel(command),
            None => unreachable!(),
        }
    }

    /// Answers the line at hand, which runs a kernel, if there is memory.
    fn run_kernel<R: Threads + Sync, E: PartScan>(
        &mut self,
        rt: &R,
        engine: &mut E,
        parts: u32,
    ) -> Result<(), NoMemory>
        requires going { is_over self.old ≡ false }
        requires ready { IsReadyBy (E.account engine.old) self.old }
        requires parts { (0 < parts) × (parts ≤ 32) }
        requires kernel { (c : Command) (rest : List Command) → left_of self.old ≡ c ∷ rest
            → (is_open self.old.phase && runs_kernel c) ≡ true }
        ensures ok { let e = calls E.account E.did_begin E.did_write E.did_read E.did_commit E.did_abort in
            OnOk result ((c : Command) (rest : List Command) → left_of self.old ≡ c ∷ rest
            → TakesTurnInParts e engine.old self.old c self.new engine.new) }
        ensures err { let e = calls E.account E.did_begin E.did_write E.did_read E.did_commit E.did_abort in
            OnErr result (WantsOn e engine.old engine.new
            × (self.new ≡ record self.old { reading = None; image = None })) }
    {
        // What turns of the line have read is let go: it is answered now, on the image that is kept or on a new one.
        self.reading = None;
        let mut image = self.image.take();
        // Before the engine is called, as for any line.
        self.answers.reserve(1)?;
        self.tables.reserve(1)?;
        let command = &self.script.as_slice()[self.answers.len()];
        let Command::Run { kernel, file } = command else {
            unreachable!()
        };
        let given = run_at_once(rt, self.alloc, engine, parts, *kernel, file, &mut image)?;
        let image = given.kept_behind(Phase::Open, image);
        self.phase = push_answer(&mut self.answers, &mut self.tables, given);
        self.keep(None, image);
        Ok(())
    }

    /// Ends a turn that was taken, or that wanted memory.
    fn end_turn<E: Engine>(&mut self, engine: &mut E, took: Result<(), NoMemory>) -> JobTurn
        requires { OnErr took (self.old.phase ≡ Phase.Open → IsSome (E.account engine.old).start) }
        ensures { EndsTurnOn E.did_abort took engine.old self.old result self.new engine.new }
    {
        match took {
            Ok(()) if self.has_ended() => JobTurn::Ended,
            Ok(()) => JobTurn::More,
            Err(NoMemory) => {
                // Its transaction is taken back, which takes no memory: the run ends, and no pass is left with one.
                self.give_up(engine);
                JobTurn::NoMemory
            }
        }
    }

    /// Keeps these for the next turn.
    fn keep(&mut self, reading: Option<LineReading>, image: Option<KeptImage>)
        ensures { self.new ≡ record self.old { reading = reading; image = image } }
    {
        self.reading = reading;
        self.image = image;
    }

    /// Takes the transaction back, if one is open, and ends the job.
    pub fn give_up<E: Engine>(&mut self, engine: &mut E)
        requires { self.old.phase ≡ Phase.Open → IsSome (E.account engine.old).start }
        ensures did { GivesUpOn E.did_abort self.old.phase engine.old engine.new }
        ensures job { self.new ≡ gone self.old }
    {
        // A stop has taken the transaction back already.
        if let Phase::Open = self.phase {
            engine.abort();
        }
        self.phase = Phase::GivenUp;
        self.keep(None, None);
    }
}

/// Appends what a line is answered, and its table if it has one, and tells the phase behind it. There has to be room.
fn push_answer(answers: &mut RoomyItems<Answer>, tables: &mut Tables, given: LineAnswer) -> Phase
    requires answers { 0 < answers.old.spare }
    requires tables { 0 < tables.old.spare }
    ensures answers { answers.new.items ≡ answers.old.items ++ given.answer ∷ [] }
    ensures tables { tables.new.items ≡ tables.old.items ++ listed_table given.table }
    ensures phase { result ≡ given.phase }
{
    let LineAnswer {
        answer,
        phase,
        table,
    } = given;
    answers.push_within(answer);
    push_table(tables, table);
    phase
}

/// Appends the table of an answer, if it has one. There has to be room.
fn push_table(tables: &mut Tables, table: Option<NamedTable>)
    requires { 0 < tables.old.spare }
    ensures { tables.new.items ≡ tables.old.items ++ listed_table table }
{
    if let Some(table) = table {
        tables.push_within(table);
    }
}

/// Whether the line runs a kernel.
fn runs_kernel(command: &Command) -> bool
    ensures { result ≡ runs_kernel command.now }
{
    matches!(command, Command::Run { .. })
}
