//! The words of the command line.
use crate::floor::{Floor, Source};
use crate::problem::{Misread, Problem};
use crate::question::{Ends, Question, Subject};
use crate::restrictor::Restrictor;
use model::Choice;
use plan::Sheet;
use std::alloc::Global;
use std::str::FromStr;

/// What the program can do with a floor.
#[derive(Clone, Copy)]
pub enum Command {
    Plan,
    List,
    Check,
    Run,
    Compare,
}

/// How answers are written.
#[derive(Clone, Copy)]
pub enum Form {
    Lines,
    Records,
    Count,
}

/// What was said by options, and the other words in turn.
#[derive(Drop)]
pub struct Options {
    command: Command,
    grid: Option<(u8, u8)>,
    rule: Option<Restrictor>,
    start: Option<u8>,
    target: Option<u8>,
    choice: Choice,
    words: Vec<String>,
    pub shut: Option<Sheet>,
    pub top: u64,
    pub form: Form,
}

// An option.
#[derive(Clone, Copy)]
enum Name {
    Valued(Setting),
    Shortest,
    Written(Form),
}

// An option with a word behind it.
#[derive(Clone, Copy)]
enum Setting {
    Grid,
    Shut,
    Rule,
    From,
    To,
    Top,
}

impl FromStr for Command {
    type Err = Misread;

    fn from_str(word: &str) -> Result<Command, Misread> {
        match word {
            "plan" => Ok(Command::Plan),
            "list" => Ok(Command::List),
            "check" => Ok(Command::Check),
            "run" => Ok(Command::Run),
            "compare" => Ok(Command::Compare),
            _ => Err(Misread::Words),
        }
    }
}

impl FromStr for Name {
    type Err = Misread;

    fn from_str(word: &str) -> Result<Name, Misread> {
        match word {
            "--grid" => Ok(Name::Valued(Setting::Grid)),
            "--shut" => Ok(Name::Valued(Setting::Shut)),
            "--rule" => Ok(Name::Valued(Setting::Rule)),
            "--from" => Ok(Name::Valued(Setting::From)),
            "--to" => Ok(Name::Valued(Setting::To)),
            "--top" => Ok(Name::Valued(Setting::Top)),
            "--shortest" => Ok(Name::Shortest),
            "--records" => Ok(Name::Written(Form::Records)),
            "--count" => Ok(Name::Written(Form::Count)),
            _ => Err(Misread::Words),
        }
    }
}

impl Command {
    // What `Problem::Usage` says; nothing else prints a command.
    pub(crate) fn usage(self) -> &'static str {
        match self {
            Command::Plan => "doorlist plan (FILE | --grid RxC) [--shut N,N..]",
            Command::List =>
                "doorlist list (FILE | --grid RxC) [--shut N,N..] --rule trail|acyclic|simple --from A --to B [--shortest] [--top N] [--records | --count] 'PATTERN'",
            Command::Check =>
                "doorlist check (FILE | --grid RxC) [--shut N,N..] --rule trail|acyclic|simple --from A --to B [--shortest] 'PATTERN' 'RECORD WORDS'",
            Command::Run =>
                "doorlist run (FILE | --grid RxC) [--shut N,N..] --rule trail|acyclic|simple 'PATTERN' SCRIPT",
            Command::Compare =>
                "doorlist compare QUESTION -- QUESTION, each (FILE | --grid RxC) [--shut N,N..] --rule trail|acyclic|simple --from A --to B [--shortest] 'PATTERN'",
        }
    }
}

impl Name {
    // Whether the command knows the option.
    fn fits(self, command: Command) -> bool {
        match self {
            Name::Valued(Setting::Grid | Setting::Shut) => true,
            Name::Valued(Setting::Rule) => !matches!(command, Command::Plan),
            Name::Valued(Setting::From | Setting::To) | Name::Shortest => !matches!(
                command,
                Command::Plan | Command::Run
            ),
            Name::Valued(Setting::Top) | Name::Written(_) => matches!(command, Command::List),
        }
    }
}

impl Setting {
    // What the word behind the option has to be: a text for `Problem::Usage`, as a command's.
    fn usage(self) -> &'static str {
        match self {
            Setting::Grid => "--grid takes rows and columns, as 2x3",
            Setting::Shut => "--shut takes passage numbers from 0 to 255, as 5,7",
            Setting::Rule => "--rule takes trail, acyclic or simple",
            Setting::From => "--from takes the number of a zone",
            Setting::To => "--to takes the number of a zone",
            Setting::Top => "--top takes a number of answers",
        }
    }
}

impl Options {
    /// Reads the words behind the command.
    pub(crate) fn read(
        heap: Global,
        command: Command,
        words: Vec<String>,
    ) -> Result<Options, Problem> {
        let mut options = Options {
            command,
            grid: None,
            rule: None,
            start: None,
            target: None,
            choice: Choice::All,
            words: Vec::new(heap),
            shut: None,
            top: u64::MAX,
            form: Form::Lines,
        };
        let mut words = words.into_iter();
        while let Some(word) = words.next() {
            if let Some(setting) = options.take(word)? {
                let misused = Problem::Usage(setting.usage());
                let value = words.next().ok_or(misused)?;
                options
                    .set(setting, value.as_str())
                    .map_err(|misread| misread.or(Problem::Usage(setting.usage())))?;
            }
        }
        Ok(options)
    }

    // Takes one word; the option that waits for a value.
    fn take(&mut self, word: String) -> Result<Option<Setting>, Problem> {
        if !word.as_str().starts_with('-') {
            self.words.push(word)?;
            return Ok(None);
        }
        match word.as_str().parse::<Name>() {
            Ok(name) if name.fits(self.command) => self.begin(name),
            _ => Err(self.misused()),
        }
    }

    fn begin(&mut self, name: Name) -> Result<Option<Setting>, Problem> {
        match name {
            Name::Valued(setting) => return Ok(Some(setting)),
            Name::Shortest => self.choice = Choice::Shortest,
            Name::Written(form) => self.write_as(form)?,
        }
        Ok(None)
    }

    fn write_as(&mut self, form: Form) -> Result<(), Problem> {
        let Form::Lines = self.form else {
            return Err(self.misused());
        };
        self.form = form;
        Ok(())
    }

    fn set(&mut self, setting: Setting, value: &str) -> Result<(), Misread> {
        match setting {
            Setting::Grid => self.grid = Some(read_grid(value)?),
            Setting::Shut => self.shut = Some(read_shut(value)?),
            Setting::Rule => self.rule = Some(value.parse::<Restrictor>()?),
            Setting::From => self.start = Some(value.parse::<u8>()?),
            Setting::To => self.target = Some(value.parse::<u8>()?),
            Setting::Top => self.top = value.parse::<u64>()?,
        }
        Ok(())
    }

    fn misused(&self) -> Problem {
        Problem::Usage(self.command.usage())
    }

    /// Takes the last word that no option explains.
    pub(crate) fn last_word(&mut self) -> Result<String, Problem> {
        self.words.pop().ok_or(self.misused())
    }

    /// Takes the floor: the grid, or else the one word that is left.
    pub(crate) fn source(&mut self) -> Result<Source, Problem> {
        let source = match self.grid {
            Some((rows, columns)) => Source::Grid(rows, columns),
            None => Source::File(self.last_word()?),
        };
        if !self.words.is_empty() {
            return Err(self.misused());
        }
        Ok(source)
    }

    pub(crate) fn rule(&self) -> Result<Restrictor, Problem> {
        self.rule.ok_or(self.misused())
    }

    pub(crate) fn ends(&self) -> Result<Ends, Problem> {
        Ok(Ends {
            start: self.start.ok_or(self.misused())?,
            target: self.target.ok_or(self.misused())?,
            choice: self.choice,
        })
    }

    /// Takes the pattern and the floor, and opens it.
    pub(crate) fn subject(
        &mut self,
        rt: &HostRuntime,
        rule: Restrictor,
    ) -> Result<Subject, Problem> {
        let text = self.last_word()?;
        let source = self.source()?;
        Ok(Subject {
            floor: Floor::open(rt, source)?,
            sheet: self.shut.unwrap_or(Sheet::blank()),
            rule,
            text,
        })
    }

    /// Takes all of a question.
    pub(crate) fn question(&mut self, rt: &HostRuntime) -> Result<Question, Problem> {
        let ends = self.ends()?;
        let rule = self.rule()?;
        let subject = self.subject(rt, rule)?;
        Ok(Question { subject, ends })
    }
}

fn read_grid(text: &str) -> Result<(u8, u8), Misread> {
    let (rows, columns) = text.split_once('x').ok_or(Misread::Words)?;
    Ok((rows.parse::<u8>()?, columns.parse::<u8>()?))
}

fn read_shut(text: &str) -> Result<Sheet, Misread> {
    let mut sheet = Sheet::blank();
    for part in text.split(',') {
        sheet.shut_passage(part.parse::<u8>()?);
    }
    Ok(sheet)
}
