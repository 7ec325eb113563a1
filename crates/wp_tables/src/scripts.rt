ghost use Rattle.std.specs.Prelude.{◌≡◌, ℕ, ◌<◌, ◌≤◌, ◌+◌, List, [], ◌∷◌, ◌++◌, Some, Ok, length, slice_get, drop, map};
ghost use Rattle.std.specs.Prelude.{vec_len, IfOk, IsTrue};
ghost use Rattle.std.specs.List.{All};
ghost use Rattle.csv.specs.Records.{fields_of};
ghost use Rattle.wp_model.specs.History.{script_of};
ghost use Rattle.wp_model.specs.Plain.{is_plain, is_plain_location, is_plain_quantity};
ghost use Rattle.wp_model.specs.Tables.{AreReadScripts};
ghost use Rattle.wp_model.specs.declared.command.Command.TheVariants as command;
ghost use Rattle.wp_tables.specs.DeskFile.{command_after, command_in_fields, command_of, desk_read, has_room, hold_of};
ghost use Rattle.wp_tables.specs.DeskFile.{is_desk, is_submission, names_read};
ghost use Rattle.wp_tables.specs.DeskFile.{of_hold, receipt_of, script_after, scripts_of, scripts_said, submission_of};
ghost use Rattle.wp_tables.specs.DeskFile.{wave_of, word_read};
ghost use Rattle.wp_tables.specs.Reading.{Gives, GivesBy, Reads, TakesIn, at_row, made_by};
ghost use Rattle.wp_tables.specs.RecordsLeft.{IsReading, kept_left};
ghost use Rattle.wp_tables.specs.Scripts.{AreDealt, IsReadCommand, MayFollow};
ghost use Rattle.wp_tables.specs.declared.scripts.DeskCommand.{DeskCommand};

use crate::fault::{RowFault, Why};
use crate::fields::{
    are_texts, field_of, four_from, one_from, read_location, read_name, read_quantity, three_from,
};
use crate::records::Records;
use crate::word::Word;
use csv::ByteRecord;
use std::alloc::Global;
use std::marker::Model;
use wp_model::{
    Command, GREATEST_DESK, Location, MOST_COMMANDS, MOST_NAMED, MOST_SUBMISSIONS, Memory, Name,
    Names, read_number,
};

/// What a desk, counted from 1, asks for.
#[derive(Drop)]
struct DeskCommand {
    desk: u32,
    command: Command,
}

/// A desk, counted from 1, and its commands, in order.
#[derive(Drop)]
struct DeskScript {
    desk: u32,
    commands: Vec<Command>,
}

/// The scripts of the desks 1, 2 and so on. Contracts see the list of them.
#[derive(Drop)]
pub struct Scripts {
    scripts: Vec<DeskScript>,
}

impl Model for Scripts {
    ghost use Rattle.std.specs.Prelude.{List, map};
    ghost use Rattle.wp_model.specs.History.{Script};
    ghost use Rattle.wp_model.specs.Tables.{AreReadScripts};
    ghost use Rattle.wp_tables.specs.Scripts.{script_in};

    ghost Value = { List Script };

    ghost view = { λ s. map script_in s.scripts.items };

    ghost invariant = { λ s. AreReadScripts (map script_in s.scripts.items) };
}

impl Scripts {
    /// How many desks there are, 1 to 8.
    pub fn desks(&self) -> u32
        ensures desks { result ≡ length self.now }
        ensures read { AreReadScripts self.now }
    {
        self.scripts.len() as u32
    }

    /// The commands of a desk, counted from 1, in order: none where the desk asks for nothing. Each is plain.
    pub fn script(&self, desk: u32) -> &[Command]
        requires first { 1 ≤ desk }
        requires last { desk ≤ length self.now }
        ensures script { result.now ≡ script_of self.now desk }
        ensures plain { All (λ command. IsTrue (is_plain command)) result.now }
    {
        self.scripts[desk as usize - 1].commands.as_slice()
    }
}

fn read_desk(field: &[u8]) -> Result<u32, Why>
    ensures desk { result ≡ desk_read field.now }
    ensures range { IfOk result (λ desk. IsTrue (is_desk desk)) }
{
    let desk = read_number(field, 18).ok_or(Why::BadNumber)?;
    if 1 <= desk && desk <= u64::from(GREATEST_DESK) {
        Ok(desk as u32)
    } else {
        Err(Why::DeskNumber)
    }
}

/// The names from a place of a record on.
fn read_names(alloc: Global, fields: &ByteRecord, at: usize) -> Result<Vec<Name>, Why>
    requires { at ≤ length (fields_of fields.now) }
    ensures names { GivesBy (λ names. names.items) result
        (names_read (drop at (fields_of fields.now))) }
    ensures len { IfOk result (λ names. vec_len names + at ≡ length (fields_of fields.now)) }
{
    let mut names = Vec::new(alloc);
    for i in at..fields.len() {
        let name = read_name(field_of(fields, i))?;
        names.push(name)?;
    }
    Ok(names)
}

fn read_submission(alloc: Global, fields: &ByteRecord) -> Result<Command, Why>
    requires { 2 ≤ length (fields_of fields.now) }
    ensures gives { Gives result (submission_of (drop 2 (fields_of fields.now))) }
    ensures plain { IfOk result (λ command. IsTrue (is_plain command)) }
{
    if fields.len() < 3 || fields.len() > 3 + MOST_NAMED as usize {
        return Err(Why::Columns);
    }
    let wave = read_name(field_of(fields, 2))?;
    let orders = read_names(alloc, fields, 3)?;
    let orders = Names::of(orders);
    Ok(Command::Submit { wave, orders })
}

fn read_wave(fields: &ByteRecord) -> Result<Name, Why>
    requires { 2 ≤ length (fields_of fields.now) }
    ensures { result ≡ wave_of (drop 2 (fields_of fields.now)) }
{
    read_name(one_from(fields, 2)?)
}

/// Units that are held for an order of a wave at a location.
struct NamedHold {
    wave: Name,
    order: Name,
    location: Location,
    quantity: u32,
}

fn read_held(fields: &ByteRecord) -> Result<NamedHold, Why>
    requires { 2 ≤ length (fields_of fields.now) }
    ensures held { result ≡ hold_of (drop 2 (fields_of fields.now)) }
    ensures plain { IfOk result (λ held. IsTrue (is_plain_location held.location)
        × IsTrue (is_plain_quantity held.quantity)) }
{
    let (wave, order, location, quantity) = four_from(fields, 2)?;
    let wave = read_name(wave)?;
    let order = read_name(order)?;
    let location = read_location(location)?;
    let quantity = read_quantity(quantity)?;
    Ok(NamedHold {
        wave,
        order,
        location,
        quantity,
    })
}

fn read_pick(fields: &ByteRecord) -> Result<Command, Why>
    requires { 2 ≤ length (fields_of fields.now) }
    ensures command { result ≡ of_hold command.Pick (drop 2 (fields_of fields.now)) }
    ensures plain { IfOk result (λ c. IsTrue (is_plain c)) }
{
    let NamedHold {
        wave,
        order,
        location,
        quantity,
    } = read_held(fields)?;
    Ok(Command::Pick {
        wave,
        order,
        location,
        quantity,
    })
}

fn read_missing(fields: &ByteRecord) -> Result<Command, Why>
    requires { 2 ≤ length (fields_of fields.now) }
    ensures command { result ≡ of_hold command.Missing (drop 2 (fields_of fields.now)) }
    ensures plain { IfOk result (λ c. IsTrue (is_plain c)) }
{
    let NamedHold {
        wave,
        order,
        location,
        quantity,
    } = read_held(fields)?;
    Ok(Command::Missing {
        wave,
        order,
        location,
        quantity,
    })
}

fn read_receipt(fields: &ByteRecord) -> Result<Command, Why>
    requires { 2 ≤ length (fields_of fields.now) }
    ensures command { result ≡ receipt_of (drop 2 (fields_of fields.now)) }
    ensures plain { IfOk result (λ c. IsTrue (is_plain c)) }
{
    let (location, article, quantity) = three_from(fields, 2)?;
    let location = read_location(location)?;
    let article = read_name(article)?;
    let quantity = read_quantity(quantity)?;
    Ok(Command::Receive {
        location,
        article,
        quantity,
    })
}

fn read_command(alloc: Global, word: Word, fields: &ByteRecord) -> Result<Command, Why>
    requires { 2 ≤ length (fields_of fields.now) }
    ensures command { Gives result (command_of word (drop 2 (fields_of fields.now))) }
    ensures plain { IfOk result (λ c. IsTrue (is_plain c)) }
{
    match word {
        Word::Submit => read_submission(alloc, fields),
        Word::Allot => {
            let wave = read_wave(fields)?;
            Ok(Command::Allot { wave })
        }
        Word::Release => {
            let wave = read_wave(fields)?;
            Ok(Command::Release { wave })
        }
        Word::Cancel => {
            let wave = read_wave(fields)?;
            Ok(Command::Cancel { wave })
        }
        Word::Pick => read_pick(fields),
        Word::Missing => read_missing(fields),
        Word::Receive => read_receipt(fields),
    }
}

fn read_word(field: &[u8]) -> Result<Word, Why>
    ensures { result ≡ word_read field.now }
{
    Word::read(field).ok_or(Why::UnknownCommand)
}

fn read_fields(alloc: Global, fields: &ByteRecord) -> Result<DeskCommand, Why>
    ensures command { Gives result (command_in_fields (fields_of fields.now)) }
    ensures read { IfOk result IsReadCommand }
{
    if fields.len() < 2 {
        return Err(Why::Columns);
    }
    if !are_texts(fields) {
        return Err(Why::NotUtf8);
    }
    let desk = read_desk(field_of(fields, 0))?;
    let word = read_word(field_of(fields, 1))?;
    let command = read_command(alloc, word, fields)?;
    Ok(DeskCommand { desk, command })
}

fn submits(command: &Command) -> bool
    ensures { result ≡ is_submission command.now }
{
    matches!(command, Command::Submit { .. })
}

/// Scripts of the desks 1 to the last, each with no command yet.
fn empty_scripts(alloc: Global, desks: u32) -> Result<Vec<DeskScript>, Memory>
    ensures { IfOk result (λ scripts. AreDealt [] desks scripts.items) }
{
    let mut scripts = Vec::new(alloc);
    for desk in 1..=desks {
        let commands = Vec::new(alloc);
        scripts.push(DeskScript { desk, commands })?;
    }
    Ok(scripts)
}

/// Puts a command last in the script of its desk.
fn deal(scripts: &mut Vec<DeskScript>, asked: DeskCommand) -> Result<(), Memory>
    requires first { 1 ≤ asked.desk }
    requires last { asked.desk ≤ length scripts.old.items }
    ensures { IfOk result (λ _. (commands : List DeskCommand) (desks : ℕ)
        → AreDealt commands desks scripts.old.items
        → AreDealt (commands ++ asked ∷ []) desks scripts.new.items) }
{
    let place = asked.desk as usize - 1;
    scripts[place].commands.push(asked.command)?;
    Ok(())
}

/// The commands read so far, in the order of the file, how many of them submit a wave, and how many desks there are.
#[derive(Drop)]
struct CommandsSoFar {
    commands: Vec<DeskCommand>,
    submissions: u32,
    desks: u32,
}

impl Model for CommandsSoFar {
    ghost use Rattle.std.specs.Prelude.{List};
    ghost use Rattle.wp_tables.specs.declared.scripts.DeskCommand.{DeskCommand};
    ghost use Rattle.wp_tables.specs.Scripts.{AreKeptCommands};

    ghost Value = { List DeskCommand };

    ghost view = { λ s. s.commands.items };

    ghost invariant = { λ s. AreKeptCommands s.commands.items s.submissions s.desks };
}

impl CommandsSoFar {
    fn new(alloc: Global) -> CommandsSoFar
        ensures { result ≡ [] }
    {
        CommandsSoFar {
            commands: Vec::new(alloc),
            submissions: 0,
            desks: 1,
        }
    }

    fn has_room(&self, command: &Command) -> bool
        ensures { result ≡ has_room self.now command.now }
    {
        !submits(command) || self.submissions < MOST_SUBMISSIONS
    }

    fn read(&self, alloc: Global, fields: &ByteRecord) -> Result<DeskCommand, Why>
        ensures command { Gives result (command_after self.now (fields_of fields.now)) }
        ensures follows { IfOk result (MayFollow self.now) }
    {
        if self.commands.len() >= MOST_COMMANDS {
            return Err(Why::TooManyRows);
        }
        let asked = read_fields(alloc, fields)?;
        if self.has_room(&asked.command) {
            Ok(asked)
        } else {
            Err(Why::TooManyWaves)
        }
    }

    fn add(&mut self, asked: DeskCommand) -> Result<(), Memory>
        requires { MayFollow self.old asked }
        ensures { IfOk result (λ _. self.new ≡ self.old ++ asked ∷ []) }
    {
        let more = u32::from(submits(&asked.command));
        let desks = self.desks.max(asked.desk);
        self.commands.push(asked)?;
        self.submissions += more;
        self.desks = desks;
        Ok(())
    }

    fn take(&mut self, alloc: Global, row: u64, fields: &ByteRecord) -> Result<(), RowFault>
        ensures { TakesIn result self.new (at_row row
            (script_after self.old (fields_of fields.now))) }
    {
        match self.read(alloc, fields) {
            Ok(asked) => Ok(self.add(asked)?),
            Err(why) => Err(RowFault { row, why }),
        }
    }

    fn finish(self, alloc: Global) -> Result<Scripts, Memory>
        ensures { IfOk result (λ scripts. scripts ≡ scripts_of self) }
    {
        let mut scripts = empty_scripts(alloc, self.desks)?;
        for asked in self.commands {
            deal(&mut scripts, asked)?;
        }
        Ok(Scripts { scripts })
    }
}

fn read_commands(alloc: Global, records: &mut Records) -> Result<CommandsSoFar, RowFault>
    requires { IsReading records.old }
    ensures { Reads result (made_by script_after [] (kept_left records.old)) }
{
    let mut fields = ByteRecord::new(alloc);
    let mut commands = CommandsSoFar::new(alloc);
    while let Some(row) = records.next(&mut fields)? {
        commands.take(alloc, row, &fields)?;
    }
    Ok(commands)
}

/// The scripts that a desk file says: the heading `desk,command,arguments`, and then a record for each command of a
/// desk, 1 to 8, as `1,submit,WAVE,ORDER,..` with at most 100 orders, `1,allot,WAVE`, `1,release,WAVE`,
/// `1,cancel,WAVE`, `1,pick,WAVE,ORDER,LOCATION,QUANTITY`, `1,missing,WAVE,ORDER,LOCATION,QUANTITY` and
/// `1,receive,LOCATION,ARTICLE,QUANTITY`. There are as many desks as the greatest number of a desk in the file, and one
/// where it has no command. Each desk has its commands in the order of the file, and none where the file has none of
/// it. A record is refused, in this order, as `TooManyRows` where it is the 10,001st of all desks together, `Columns`
/// where it has fewer than two fields, `NotUtf8` where one isn't text, `BadNumber` where the first isn't 1 to 18
/// digits, `DeskNumber` where it is no number 1 to 8, `UnknownCommand`, `Columns` where it hasn't its command's number
/// of fields, for the arguments from left to right `BadName` where one is no name or location, and `BadNumber` or
/// `OutOfRange` where one is no quantity 1 to 100,000, and `TooManyWaves` where it is the 501st of all desks together
/// that submits a wave. The first record that is refused is the answer, and so is the first record at all, or row 1
/// where there is none, as `Columns` where it isn't the heading.
pub fn read_desks(alloc: Global, text: &Vec<u8>) -> Result<Scripts, RowFault>
    ensures exact { Reads result (scripts_said text.now.items) }
    ensures read { IfOk result AreReadScripts }
{
    let mut records = Records::under(alloc, text, b"desk", b"command", b"arguments")?;
    let commands = read_commands(alloc, &mut records)?;
    let scripts = commands.finish(alloc)?;
    Ok(scripts)
}
