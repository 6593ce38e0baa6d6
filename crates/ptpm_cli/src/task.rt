//! What the words of the command line ask for.

use crate::command_line::{Subcommand, command_line};
use crate::plan::{PlanShown, PlanWords};
use crate::site::{Shown, SiteWords};
use NoTask::NoCommand;
use clap::ArgMatches;
use clap::error::ErrorKind;
use ptpm_commands::make::RequestWords;
use ptpm_commands::show::Values;
use ptpm_draw::Chosen;
use ptpm_expected::profile::Profile;
use ptpm_monitor::{Judging, Settings, Times};
use ptpm_plan::{PlanForm, PlanOptions};
use ptpm_schedule::Chances;
use ptpm_site::judging::limits::Limits;
use ptpm_site_report::ignored::Ignored;
use ptpm_site_report::names::Names;
use ptpm_site_report::{Form, Options};
use std::alloc::{AllocError, Global};
use std::str::FromStr;

/// A millisecond, in nanoseconds.
const MILLISECOND: u64 = 1_000_000;

/// How many seconds TAI is ahead of UTC, since 2017.
const TAI_UTC: i16 = 37;

/// How many seconds a port may take to settle without `--settle` (this project's profile).
const SETTLE: u32 = 10;

/// How many milliseconds a clock is gone without `--forget`.
const FORGET: u64 = 86_400_000;

/// The findings that say what differs from the poll before.
const CHANGES: &str = "changed,grandmaster_changed";

/// What the words ask for.
pub(crate) enum Task<'a> {
    Answer(Datagrams<'a>),
    Show(Values, Datagrams<'a>),
    /// `show --lines --skip`.
    ShowGoodLines(Values),
    Ids,
    Findings,
    Make(RequestWords<'a>),
    /// `make --member`, with what each option says.
    MakeWithMembers(RequestWords<'a>, Vec<&'a str>),
    /// `run`, with a script on standard input.
    Run,
    /// `schedule`, with a script of requests on standard input.
    Schedule(Chances),
    /// `check`, with a script on standard input.
    Check,
    /// `draw`, with a script on standard input.
    Draw(Chosen),
    /// `plan`, with answers on standard input.
    Plan(PlanWords<'a>),
    /// `site`, with answers on standard input.
    Site(SiteWords<'a>),
    /// `monitor`, with a host that answers on standard input.
    Monitor(Settings<'a>),
}

/// What `answer` or `show` takes.
pub(crate) enum Datagrams<'a> {
    /// A datagram in hexadecimal, on the command line.
    One(&'a str),
    /// A datagram on each line of standard input.
    Lines,
}

/// Why words that clap takes are no task.
#[derive(Clone, Copy)]
enum NoTask {
    OutOfMemory,
    NoCommand,
    /// `--max-offset` has neither a number nor `none`.
    BadLimit,
    /// `--name` has no identity, or no name.
    BadName,
    /// `--ignore` has a name that no finding has.
    BadFinding,
    /// `--profile` has no name of a profile.
    BadProfile,
}

impl From<AllocError> for NoTask {
    fn from(_: AllocError) -> NoTask {
        NoTask::OutOfMemory
    }
}

impl NoTask {
    /// What is wrong, after `error: `.
    fn reason<'a>(self) -> &'a str {
        match self {
            NoTask::OutOfMemory => "out of memory",
            NoTask::NoCommand => "a command is required",
            NoTask::BadLimit =>
                "invalid value for '--max-offset <NS>': neither a number from 0 to 18446744073709551615 nor 'none'",
            NoTask::BadName =>
                "invalid value for '--name <ID=NAME>': not a clockIdentity, '=' and a name",
            NoTask::BadFinding =>
                "invalid value for '--ignore <NAME,..>': not the names of findings, with ',' between them",
            NoTask::BadProfile =>
                "invalid value for '--profile <NAME>': none of default, st2059-2, aes67 and gptp",
        }
    }

    fn kind(self) -> ErrorKind {
        match self {
            NoTask::OutOfMemory => ErrorKind::OutOfMemory,
            NoTask::NoCommand => ErrorKind::MissingSubcommand,
            _ => ErrorKind::InvalidValue,
        }
    }
}

/// The task, or why there is none: the words were refused, or they ask for help or the version.
pub(crate) fn parse<'a>(alloc: Global, words: &'a [&'a str]) -> Result<Task<'a>, clap::Error> {
    let mut ptpm = command_line(alloc)?;
    let matches = ptpm.try_get_matches_from_mut(words)?;
    match task_of(alloc, &matches) {
        Ok(task) => Ok(task),
        Err(fault) => Err(ptpm.error(fault.kind(), fault.reason())?),
    }
}

/// The task of the subcommand whose values were taken.
fn task_of<'a>(alloc: Global, matches: &ArgMatches<'a>) -> Result<Task<'a>, NoTask> {
    let (name, values) = matches.subcommand().ok_or(NoCommand)?;
    match Subcommand::named(name).ok_or(NoCommand)? {
        Subcommand::Answer => Ok(Task::Answer(datagrams_of(values).ok_or(NoCommand)?)),
        Subcommand::Show => show_task(values).ok_or(NoCommand),
        Subcommand::Ids => Ok(Task::Ids),
        Subcommand::Make => make_task(alloc, values),
        Subcommand::Run => Ok(Task::Run),
        Subcommand::Check => Ok(Task::Check),
        Subcommand::Schedule => Ok(Task::Schedule(chances(values).ok_or(NoCommand)?)),
        Subcommand::Draw => Ok(Task::Draw(chosen(values).ok_or(NoCommand)?)),
        Subcommand::Site => Ok(Task::Site(site_words(alloc, values)?)),
        Subcommand::Monitor => Ok(Task::Monitor(monitor_settings(alloc, values)?)),
        Subcommand::Findings => Ok(Task::Findings),
        Subcommand::Plan => Ok(Task::Plan(plan_words(values).ok_or(NoCommand)?)),
    }
}

fn show_task<'a>(values: &ArgMatches<'a>) -> Option<Task<'a>> {
    let shown = shown_values(values);
    if values.get_flag("skip") {
        return Some(Task::ShowGoodLines(shown));
    }
    Some(Task::Show(shown, datagrams_of(values)?))
}

fn make_task<'a>(alloc: Global, values: &ArgMatches<'a>) -> Result<Task<'a>, NoTask> {
    let words = request_words(values).ok_or(NoCommand)?;
    let Some(said) = values.get_strs("member") else {
        return Ok(Task::Make(words));
    };
    let mut members = Vec::new(alloc);
    for member in said {
        members.push(*member).map_err(AllocError::from)?;
    }
    Ok(Task::MakeWithMembers(words, members))
}

fn datagrams_of<'a>(values: &ArgMatches<'a>) -> Option<Datagrams<'a>> {
    if values.get_flag("lines") {
        Some(Datagrams::Lines)
    } else {
        Some(Datagrams::One(values.get_str("HEX")?))
    }
}

/// How `show` prints a message.
fn shown_values(values: &ArgMatches<'_>) -> Values {
    if values.get_flag("json") {
        Values::Json
    } else if values.get_flag("members") {
        Values::Members
    } else {
        Values::Octets
    }
}

fn request_words<'a>(values: &ArgMatches<'a>) -> Option<RequestWords<'a>> {
    Some(RequestWords {
        action: values.get_str("ACTION")?,
        id: values.get_str("ID")?,
        value: values.get_str("VALUE").unwrap_or(""),
        from: values.get_str("from")?,
        to: values.get_str("to")?,
        number: values.get_one("number")?,
        hops: values.get_one("hops")?,
        domain: values.get_one("domain")?,
    })
}

fn chances(values: &ArgMatches<'_>) -> Option<Chances> {
    Some(Chances {
        loss: values.get_one("loss")?,
        repeat: values.get_one("repeat")?,
        seed: values.get_one("seed")?,
    })
}

fn chosen(values: &ArgMatches<'_>) -> Option<Chosen> {
    Some(Chosen {
        from: values.get_one("from")?,
        to: values.get_one("to")?,
    })
}

fn plan_words<'a>(values: &ArgMatches<'a>) -> Option<PlanWords<'a>> {
    let form = if values.get_flag("steps") {
        PlanForm::Steps
    } else if values.get_flag("json") {
        PlanForm::Json
    } else {
        PlanForm::Text
    };
    let shown = if values.get_flag("asks") {
        PlanShown::Questions
    } else {
        let tells_changes = values.get_flag("status-if-changes");
        PlanShown::Plan(PlanOptions {
            form,
            tells_changes,
        })
    };
    Some(PlanWords {
        file: values.get_str("FILE")?,
        shown,
    })
}

fn site_words<'a>(alloc: Global, values: &ArgMatches<'a>) -> Result<SiteWords<'a>, NoTask> {
    Ok(SiteWords {
        shown: how_shown(values)?,
        names: site_names(alloc, values)?,
        ignored: site_ignored(alloc, values)?,
        profile: site_profile(values)?,
        expect: values.get_str("expect"),
        before: values.get_str("before"),
        is_all: values.get_flag("all"),
    })
}

fn monitor_settings<'a>(alloc: Global, values: &ArgMatches<'a>) -> Result<Settings<'a>, NoTask> {
    Ok(Settings {
        judging: poll_judging(alloc, values)?,
        times: Times {
            watch: values.get_one("watch"),
            duration: values.get_one("for").unwrap_or(0),
            forget: values.get_one("forget").unwrap_or(FORGET),
        },
        hops: values.get_one("hops").ok_or(NoCommand)?,
        is_as_far_as_named: values.get_flag("as-far-as-named"),
        is_once: values.get_flag("once"),
        is_coloured: values.get_flag("colour"),
        replaces: values.get_flag("replace"),
    })
}

/// How the polls of `monitor` are judged and shown.
fn poll_judging<'a>(alloc: Global, values: &ArgMatches<'a>) -> Result<Judging<'a>, NoTask> {
    let mut ignored_at_first = site_ignored(alloc, values)?;
    if !ignored_at_first.add(CHANGES)? {
        return Err(NoTask::BadFinding);
    }
    Ok(Judging {
        options: Options {
            form: site_form(values),
            limits: site_limits(values)?,
        },
        names: site_names(alloc, values)?,
        profile: site_profile(values)?,
        expect: values.get_str("expect"),
        ignored: site_ignored(alloc, values)?,
        ignored_at_first,
        is_all: values.get_flag("all"),
    })
}

/// The names that `--name` gives.
fn site_names(alloc: Global, values: &ArgMatches<'_>) -> Result<Names, NoTask> {
    let mut names = Names::new(alloc);
    if let Some(said) = values.get_strs("name") {
        for words in said {
            if !names.add(alloc, *words)? {
                return Err(NoTask::BadName);
            }
        }
    }
    Ok(names)
}

/// The findings that `--ignore` leaves out.
fn site_ignored(alloc: Global, values: &ArgMatches<'_>) -> Result<Ignored, NoTask> {
    let mut ignored = Ignored::none(alloc);
    if let Some(said) = values.get_strs("ignore") {
        for names in said {
            if !ignored.add(*names)? {
                return Err(NoTask::BadFinding);
            }
        }
    }
    Ok(ignored)
}

fn site_profile(values: &ArgMatches<'_>) -> Result<Option<Profile>, NoTask> {
    match values.get_str("profile") {
        Some(name) => Ok(Some(Profile::of_name(name).ok_or(NoTask::BadProfile)?)),
        None => Ok(None),
    }
}

/// What the amount of an offset may be in nanoseconds: 1 ms without `--max-offset`, and whatever with `none`.
fn most_offset(values: &ArgMatches<'_>) -> Result<Option<u64>, NoTask> {
    match values.get_str("max-offset") {
        Some(limit) if limit == "none" => Ok(None),
        Some(limit) => Ok(Some(u64::from_str(limit).map_err(|_| NoTask::BadLimit)?)),
        None => Ok(Some(MILLISECOND)),
    }
}

/// How `site` shows a site.
fn how_shown(values: &ArgMatches<'_>) -> Result<Shown, NoTask> {
    let limits = site_limits(values)?;
    Ok(if values.get_flag("write-expect") {
        Shown::Inventory
    } else {
        let form = site_form(values);
        Shown::InForm(Options { form, limits })
    })
}

/// What `site` prints.
fn site_form(values: &ArgMatches<'_>) -> Form {
    if values.get_flag("nagios") {
        Form::Plugin
    } else if values.get_flag("json") {
        Form::Json
    } else if values.get_flag("draw") {
        Form::Drawing
    } else if values.get_flag("html") {
        Form::Page
    } else if values.get_flag("openmetrics") {
        Form::OpenMetrics
    } else {
        Form::Text
    }
}

/// What `site` allows.
fn site_limits(values: &ArgMatches<'_>) -> Result<Limits, NoTask> {
    Ok(Limits {
        offset: most_offset(values)?,
        delay: values.get_one("max-delay"),
        tai_utc: values.get_one("tai-utc").unwrap_or(TAI_UTC),
        settle: values.get_one("settle").unwrap_or(SETTLE),
        is_synchronised: false,
    })
}
