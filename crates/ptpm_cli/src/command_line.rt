//! The table of subcommands, and of the words that each takes. `--help` prints it.

use Range::{I16, Percent, U8, U16, U32, U64};
use Takes::{
    Nothing, Number, NumberElse, RequiredNumber, RequiredText, RequiredWord, SignedTexts, Text,
    Texts, Word,
};
use clap::{Arg, ArgAction, ArgGroup, Command, value_parser};
use std::alloc::{AllocError, Global};

/// What `--version` prints after the program's name; CHANGELOG.md says what came with each.
const VERSION: &str = "0.1.0";

/// A subcommand, in the order of the help.
#[derive(Clone, Copy)]
pub(crate) enum Subcommand {
    Answer,
    Show,
    Ids,
    Make,
    Run,
    Check,
    Schedule,
    Draw,
    Site,
    Monitor,
    Findings,
    Plan,
}

/// What an argument takes, and whether it has to be there.
#[derive(Clone, Copy)]
enum Takes {
    /// A text at its place, which may be absent.
    Word,
    RequiredWord,
    /// Nothing: the option is there or not.
    Nothing,
    /// A text, which the help calls so.
    Text(&'static str),
    RequiredText(&'static str),
    /// A text each time that it is given.
    Texts(&'static str),
    /// The same, and a text may be a negative number.
    SignedTexts(&'static str),
    /// A number, which the help calls so.
    Number(&'static str, Range),
    RequiredNumber(Range),
    /// A number, and this one if it is absent.
    NumberElse(Range, &'static str),
}

/// From where to where a number goes.
#[derive(Clone, Copy)]
enum Range {
    U8,
    U16,
    U32,
    U64,
    I16,
    Percent,
}

/// An argument: its name, what it takes, and its help.
#[derive(Clone, Copy)]
struct Argument(&'static str, Takes, &'static str);

/// Arguments that exclude each other: their name as a group, they, and whether one is required.
#[derive(Clone, Copy)]
struct Group(&'static str, &'static [&'static str], bool);

const DATAGRAM: Argument = Argument("HEX", Word, "The datagram in hexadecimal digits");

const LINES: Argument = Argument(
    "lines",
    Nothing,
    "Reads a datagram from each line of standard input",
);

const JSON: Argument = Argument("json", Nothing, "Prints one JSON object");

static ANSWER: [Argument; 2] = [DATAGRAM, LINES];

/// `--skip` is taken only with `--lines`: without a datagram that is required.
static SHOW: [Argument; 5] = [
    DATAGRAM,
    LINES,
    Argument(
        "members",
        Nothing,
        "Prints each member of the dataField on its line, in place of the octets",
    ),
    Argument(
        "json",
        Nothing,
        "Prints a message as one JSON object, in a line",
    ),
    Argument(
        "skip",
        Nothing,
        "With --lines: names each line without a management message on standard error and reads on, with status 0",
    ),
];

static MAKE: [Argument; 9] = [
    Argument("ACTION", RequiredWord, "get, set or command"),
    Argument(
        "ID",
        RequiredWord,
        "A name that `ids` prints in either case, or four hexadecimal digits",
    ),
    Argument(
        "VALUE",
        Word,
        "The dataField in hexadecimal digits, none if absent",
    ),
    Argument(
        "member",
        SignedTexts("NAME=VALUE"),
        "In place of VALUE: a member of the dataField, in the order of `show --members`",
    ),
    Argument("from", RequiredText("ID/PORT"), "sourcePortIdentity"),
    Argument("to", RequiredText("ID/PORT"), "targetPortIdentity"),
    Argument("number", RequiredNumber(U16), "sequenceId, 0 to 65535"),
    Argument(
        "hops",
        RequiredNumber(U8),
        "startingBoundaryHops and boundaryHops, 0 to 255",
    ),
    Argument("domain", NumberElse(U8, "0"), "domainNumber, 0 to 255"),
];

static SCHEDULE: [Argument; 3] = [
    Argument(
        "loss",
        NumberElse(Percent, "0"),
        "Of a hundred frames N are lost, 0 to 100",
    ),
    Argument(
        "repeat",
        NumberElse(Percent, "0"),
        "Of a hundred frames that arrive N arrive twice, 0 to 100",
    ),
    Argument("seed", NumberElse(U64, "0"), "The same seed draws the same"),
];

static DRAW: [Argument; 2] = [
    Argument(
        "from",
        NumberElse(U32, "1"),
        "The first event line that is drawn",
    ),
    Argument(
        "to",
        NumberElse(U32, "2000000"),
        "The last event line that is drawn",
    ),
];

/// What says how a poll of a site is judged and shown.
static LOOK: [Argument; 14] = [
    JSON,
    Argument("draw", Nothing, "Draws the tree, as a picture in SVG"),
    Argument(
        "html",
        Nothing,
        "Writes the tree and the findings as a page in HTML",
    ),
    Argument(
        "openmetrics",
        Nothing,
        "Prints numbers for Prometheus, in OpenMetrics",
    ),
    Argument(
        "nagios",
        Nothing,
        "Prints a line for Nagios or Icinga, and ends with the status of a plugin",
    ),
    Argument(
        "max-offset",
        Text("NS"),
        "An offset from the master of more than NS nanoseconds is a finding (1000000 if it is not given); 'none' is no limit",
    ),
    Argument(
        "max-delay",
        Number("NS", U64),
        "A mean delay of more than NS nanoseconds is a finding",
    ),
    Argument(
        "tai-utc",
        Number("S", I16),
        "TAI is S seconds ahead of UTC, 37 if it is not given",
    ),
    Argument(
        "settle",
        Number("SECONDS", U32),
        "A port may take SECONDS to lock or to settle in a state, 10 if it is not given",
    ),
    Argument(
        "all",
        Nothing,
        "The text also has each finding that follows from another, and each of many lines that are alike",
    ),
    Argument(
        "ignore",
        Texts("NAME,.."),
        "Leaves out the findings of these names; may be given more than once",
    ),
    Argument(
        "name",
        Texts("ID=NAME"),
        "A person calls the clock with this identity NAME; may be given more than once",
    ),
    Argument(
        "profile",
        Text("NAME"),
        "A member that the profile does not allow is a finding: default, st2059-2, aes67 or gptp",
    ),
    Argument(
        "expect",
        Text("FILE"),
        "What is not as the inventory in FILE says is a finding",
    ),
];

static SITE: [Argument; 2] = [
    Argument(
        "write-expect",
        Nothing,
        "Prints the inventory of the site as it is, for --expect",
    ),
    Argument(
        "before",
        Text("FILE"),
        "What may be there only for a moment counts if the lines in FILE, of the poll before, show it too",
    ),
];

static MONITOR: [Argument; 8] = [
    Argument(
        "hops",
        NumberElse(U8, "7"),
        "A request is passed on by N boundary clocks at first",
    ),
    Argument(
        "as-far-as-named",
        Nothing,
        "It is passed on by no more, even if a clock may be after the last one",
    ),
    Argument(
        "once",
        Nothing,
        "A finding that may be momentary is not polled a second time",
    ),
    Argument(
        "for",
        Number("MS", U64),
        "Polls again for MS milliseconds, and shows what all these polls find",
    ),
    Argument(
        "watch",
        Number("MS", U64),
        "Polls again and again, MS milliseconds after each poll",
    ),
    Argument(
        "forget",
        Number("MS", U64),
        "Forgets a clock that is gone after MS milliseconds, a day if it is not given",
    ),
    Argument("colour", Nothing, "The lines of findings have colours"),
    Argument(
        "replace",
        Nothing,
        "What is printed takes the place of what was printed before",
    ),
];

static PLAN: [Argument; 5] = [
    Argument("FILE", RequiredWord, "The plan file, in TOML"),
    JSON,
    Argument(
        "steps",
        Nothing,
        "Prints, after the plan, a line for each change with its dataFields",
    ),
    Argument(
        "asks",
        Nothing,
        "Prints only which GETs are to be answered, and reads no answers",
    ),
    Argument(
        "status-if-changes",
        Nothing,
        "Ends with status 8, and not 0, if there are changes",
    ),
];

static SHOW_GROUPS: [Group; 3] = [
    Group("datagrams", &["HEX", "lines"], true),
    Group("forms", &["members", "json"], false),
    Group("skipped", &["HEX", "skip"], false),
];

static PLAN_GROUPS: [Group; 2] = [
    Group("forms", &["json", "steps", "asks"], false),
    Group("printed", &["asks", "status-if-changes"], false),
];

static MONITOR_GROUPS: [Group; 1] = [Group(
    "forms",
    &["json", "draw", "html", "openmetrics", "nagios"],
    false,
)];

static SITE_GROUPS: [Group; 1] = [Group(
    "forms",
    &[
        "json",
        "draw",
        "html",
        "openmetrics",
        "nagios",
        "write-expect",
    ],
    false,
)];

impl Subcommand {
    const ALL: [Subcommand; 12] = [
        Subcommand::Answer,
        Subcommand::Show,
        Subcommand::Ids,
        Subcommand::Make,
        Subcommand::Run,
        Subcommand::Check,
        Subcommand::Schedule,
        Subcommand::Draw,
        Subcommand::Site,
        Subcommand::Monitor,
        Subcommand::Findings,
        Subcommand::Plan,
    ];

    fn name<'a>(self) -> &'a str {
        match self {
            Subcommand::Answer => "answer",
            Subcommand::Show => "show",
            Subcommand::Ids => "ids",
            Subcommand::Make => "make",
            Subcommand::Run => "run",
            Subcommand::Check => "check",
            Subcommand::Schedule => "schedule",
            Subcommand::Draw => "draw",
            Subcommand::Site => "site",
            Subcommand::Monitor => "monitor",
            Subcommand::Findings => "findings",
            Subcommand::Plan => "plan",
        }
    }

    /// The subcommand of a name.
    pub(crate) fn named(name: &str) -> Option<Subcommand> {
        Subcommand::ALL
            .iter()
            .copied()
            .find(|subcommand| subcommand.name() == name)
    }

    fn about<'a>(self) -> &'a str {
        match self {
            Subcommand::Answer => "Prints what a fresh clock sends for a datagram at its port 1",
            Subcommand::Show => "Prints the fields of a management message",
            Subcommand::Ids => "Prints the table of management ids",
            Subcommand::Make => "Prints a request in hexadecimal digits",
            Subcommand::Run =>
                "Runs a network as the script on standard input says, and prints the trace",
            Subcommand::Check =>
                "Prints every fault of the network file or script on standard input, and runs nothing",
            Subcommand::Schedule =>
                "Makes the requests on standard input into a script for `run`, on a network that loses and repeats messages",
            Subcommand::Draw =>
                "Draws what happens in the script on standard input, as a picture in SVG",
            Subcommand::Site =>
                "Shows a site at a glance, by the answers of its clocks on standard input, a datagram a line",
            Subcommand::Monitor =>
                "Looks at a site by a host program, to which it says on standard output what to do",
            Subcommand::Findings => "Prints the table of what site may find",
            Subcommand::Plan =>
                "Shows what a file would change at the clocks whose answers are on standard input, a datagram a line",
        }
    }

    fn arguments(self) -> &'static [Argument] {
        match self {
            Subcommand::Answer => &ANSWER,
            Subcommand::Show => &SHOW,
            Subcommand::Make => &MAKE,
            Subcommand::Schedule => &SCHEDULE,
            Subcommand::Draw => &DRAW,
            Subcommand::Site => &SITE,
            Subcommand::Monitor => &MONITOR,
            Subcommand::Plan => &PLAN,
            Subcommand::Ids | Subcommand::Run | Subcommand::Check | Subcommand::Findings => &[],
        }
    }

    /// Those that it takes before them, as another does too.
    fn shared_arguments(self) -> &'static [Argument] {
        match self {
            Subcommand::Site | Subcommand::Monitor => &LOOK,
            _ => &[],
        }
    }

    /// Those of its arguments that exclude each other.
    fn groups(self) -> &'static [Group] {
        match self {
            Subcommand::Answer => &[Group("datagrams", &["HEX", "lines"], true)],
            Subcommand::Show => &SHOW_GROUPS,
            Subcommand::Make => &[Group("values", &["VALUE", "member"], false)],
            Subcommand::Site => &SITE_GROUPS,
            Subcommand::Monitor => &MONITOR_GROUPS,
            Subcommand::Plan => &PLAN_GROUPS,
            _ => &[],
        }
    }
}

/// The program with its subcommands.
pub(crate) fn command_line<'a>(alloc: Global) -> Result<Command<'a>, AllocError> {
    let about = "Management messages of the Precision Time Protocol";
    let ptpm = described(alloc, "ptpm", about).bin_name("ptpm")?;
    let ptpm = ptpm
        .version(VERSION)
        .disable_help_subcommand(true)
        .subcommand_required(true);
    with_subcommands(alloc, ptpm)
}

/// A command without arguments.
fn described<'a>(alloc: Global, name: &'a str, about: &'a str) -> Command<'a> {
    Command::new(alloc, name).about(about)
}

fn with_subcommands<'a>(alloc: Global, mut ptpm: Command<'a>) -> Result<Command<'a>, AllocError> {
    for subcommand in Subcommand::ALL {
        ptpm = ptpm.subcommand(command_of(alloc, subcommand)?)?;
    }
    Ok(ptpm)
}

fn command_of<'a>(alloc: Global, subcommand: Subcommand) -> Result<Command<'a>, AllocError> {
    let command = described(alloc, subcommand.name(), subcommand.about());
    let command = with_arguments(alloc, command, subcommand.shared_arguments())?;
    let command = with_arguments(alloc, command, subcommand.arguments())?;
    with_groups(alloc, command, subcommand.groups())
}

fn with_arguments<'a>(
    alloc: Global,
    mut command: Command<'a>,
    arguments: &'static [Argument],
) -> Result<Command<'a>, AllocError> {
    for Argument(name, takes, help) in arguments {
        let arg = Arg::new(alloc, name).help(help);
        command = command.arg(taking(arg, name, *takes))?;
    }
    Ok(command)
}

fn with_groups<'a>(
    alloc: Global,
    mut command: Command<'a>,
    groups: &'static [Group],
) -> Result<Command<'a>, AllocError> {
    for Group(name, members, is_required) in groups {
        let mut group = ArgGroup::new(alloc, name).required(*is_required);
        for member in *members {
            group = group.arg(member)?;
        }
        command = command.group(group)?;
    }
    Ok(command)
}

/// The argument, which takes what is said. What is no word at its place is an option of this name.
fn taking<'a>(arg: Arg<'a>, name: &'a str, takes: Takes) -> Arg<'a> {
    match takes {
        Word => arg.action(ArgAction::Set),
        RequiredWord => arg.action(ArgAction::Set).required(true),
        Nothing => arg.long(name).action(ArgAction::SetTrue),
        Text(value) => valued(arg, name, value),
        RequiredText(value) => valued(arg, name, value).required(true),
        Texts(value) => valued(arg, name, value).action(ArgAction::Append),
        SignedTexts(value) => valued(arg, name, value)
            .allow_negative_numbers(true)
            .action(ArgAction::Append),
        Number(value, range) => ranging(valued(arg, name, value), range),
        RequiredNumber(range) => ranging(valued(arg, name, "N"), range).required(true),
        NumberElse(range, absent) => ranging(valued(arg, name, "N"), range).default_value(absent),
    }
}

/// The argument as an option `--NAME VALUE`.
fn valued<'a>(arg: Arg<'a>, name: &'a str, value: &'a str) -> Arg<'a> {
    arg.long(name).value_name(value).action(ArgAction::Set)
}

/// The argument, which takes the numbers of a range.
fn ranging<'a>(arg: Arg<'a>, range: Range) -> Arg<'a> {
    match range {
        U8 => arg.value_parser(value_parser!(u8)),
        U16 => arg.value_parser(value_parser!(u16)),
        U32 => arg.value_parser(value_parser!(u32)),
        U64 => arg.value_parser(value_parser!(u64)),
        I16 => arg
            .allow_negative_numbers(true)
            .value_parser(value_parser!(i16)),
        Percent => arg.value_parser(value_parser!(u8).range(0..=100)),
    }
}
