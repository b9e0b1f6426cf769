//! The command line, as a table of commands and their arguments.

use clap::{Arg, ArgAction, Command};
use std::alloc::{AllocError, Global};

/// What `--version` tells.
const VERSION: &str = "0.1.0";

/// What stands for an argument among the words.
#[derive(Clone, Copy)]
enum Form {
    /// A word.
    Word,
    /// Words, one or more.
    Words,
    /// --NAME
    Flag,
    /// --NAME and a value, which help calls so.
    Value(&'static str),
    /// --NAME and two values, the passwd and the group of a host.
    Accounts,
}

/// Whether an argument has to stand there.
#[derive(Clone, Copy)]
enum Need {
    Optional,
    Required,
    /// It has to where the argument of that name does not.
    Unless(&'static str),
}

/// An argument of a command.
#[derive(Clone, Copy)]
struct Argument {
    name: &'static str,
    form: Form,
    need: Need,
    /// The letter after one dash that names it too.
    letter: Option<char>,
    help: &'static str,
}

/// A command with its arguments.
#[derive(Clone, Copy)]
struct Subcommand {
    name: &'static str,
    about: &'static str,
    /// The usage, where it is told by hand.
    usage: Option<&'static str>,
    arguments: &'static [Argument],
}

// What words have in common: each has to stand there.
const WORD: Argument = Argument {
    name: "",
    form: Form::Word,
    need: Need::Required,
    letter: None,
    help: "",
};

// What arguments with a long name have in common that may be absent.
const FLAG: Argument = Argument {
    form: Form::Flag,
    need: Need::Optional,
    ..WORD
};

// -q, --quiet
const QUIET: Argument = Argument {
    name: "quiet",
    letter: Some('q'),
    help: "no warnings, and no hints: faults alone",
    ..FLAG
};

// --pins FILE
const PINS: Argument = Argument {
    name: "pins",
    form: Form::Value("FILE"),
    help: "numbers that names are to have: lines as in a map",
    ..FLAG
};

// --keep FILE
const KEEP: Argument = Argument {
    name: "keep",
    form: Form::Value("FILE"),
    help: "names, ranges of numbers, and numbers without an account, \
        that stay as they are on each host",
    ..FLAG
};

// HOST..., one or more.
const HOSTS: Argument = Argument {
    name: "HOST",
    form: Form::Words,
    help: "NAME=DIR, or DIR, whose last part is the name; \
        it holds passwd, group, mtree and maybe login.defs",
    ..WORD
};

// count [--quiet] [--keep FILE] MAP HOST...
const COUNT: Subcommand = Subcommand {
    name: "count",
    about: "Counts the user and group fields of files that a map would change",
    usage: None,
    arguments: &[
        QUIET,
        KEEP,
        Argument {
            name: "MAP",
            help: "the map: a line for each user and each group, as merge writes it",
            ..WORD
        },
        HOSTS,
    ],
};

// merge [--quiet] [--pins FILE] [--keep FILE] OUT HOST..., or the same with -o OUT HOST...
const MERGE: Subcommand = Subcommand {
    name: "merge",
    about: "Merges the accounts of hosts so that as few user and group fields as possible change",
    usage: Some(
        "unify merge [--quiet] [--pins FILE] [--keep FILE] OUT HOST...\n       \
        unify merge [--quiet] [--pins FILE] [--keep FILE] -o OUT HOST...",
    ),
    arguments: &[
        QUIET,
        PINS,
        KEEP,
        Argument {
            name: "output",
            form: Form::Value("OUT"),
            letter: Some('o'),
            help: "the directory to write into; each other argument is a HOST then",
            ..FLAG
        },
        Argument {
            name: "OUT",
            need: Need::Unless("output"),
            help: "the existing directory to write the merged files and those of each host into",
            ..WORD
        },
        Argument {
            need: Need::Unless("output"),
            ..HOSTS
        },
    ],
};

// check [--quiet] [--pins FILE] [--keep FILE] CERTIFICATE HOST...
const CHECK: Subcommand = Subcommand {
    name: "check",
    about: "Checks that no map changes fewer user and group fields than that of a certificate",
    usage: None,
    arguments: &[
        QUIET,
        PINS,
        KEEP,
        Argument {
            name: "CERTIFICATE",
            help: "the certificate of a map",
            ..WORD
        },
        HOSTS,
    ],
};

// rehearse PLAN MTREE
const REHEARSE: Subcommand = Subcommand {
    name: "rehearse",
    about: "Carries a plan out on a tree in memory that is as an inventory tells",
    usage: None,
    arguments: &[
        Argument {
            name: "PLAN",
            help: "the plan of a host",
            ..WORD
        },
        Argument {
            name: "MTREE",
            help: "the host's inventory",
            ..WORD
        },
    ],
};

// inventory [-x] ROOT...
const INVENTORY: Subcommand = Subcommand {
    name: "inventory",
    about: "Writes the inventory of the files below directories of this machine",
    usage: None,
    arguments: &[
        Argument {
            name: "one-file-system",
            letter: Some('x'),
            help: "leaves out what is on another file system than its ROOT",
            ..FLAG
        },
        Argument {
            name: "ROOT",
            form: Form::Words,
            help: "a directory, whose files are written with its path in front, \
            without the first slash",
            ..WORD
        },
    ],
};

// apply [--quiet] [--progress] [--check] [--reverse] [--begun] [--mark FILE] [--host NAME]
//     PLAN ROOT
const APPLY: Subcommand = Subcommand {
    name: "apply",
    about: "Carries a plan out on the files below a directory, from wherever it was stopped",
    usage: None,
    arguments: &[
        Argument {
            help: "no warnings, no hints and no progress: faults alone",
            ..QUIET
        },
        Argument {
            name: "progress",
            help: "tells how far it is, also where standard error is no terminal",
            ..FLAG
        },
        Argument {
            name: "check",
            help: "counts the files by their owners, tells what a run would refuse, \
            and changes nothing",
            ..FLAG
        },
        Argument {
            name: "reverse",
            help: "takes the plan back: each file gets its old owner in place of its new one",
            ..FLAG
        },
        Argument {
            name: "begun",
            help: "the plan was started, and FILE.modes is gone: \
            files may have their new owners already",
            ..FLAG
        },
        Argument {
            name: "mark",
            form: Form::Value("FILE"),
            help: "the file that marks the plan as done [default: PLAN.done]",
            ..FLAG
        },
        Argument {
            name: "host",
            form: Form::Value("NAME"),
            help: "the plan's host, where this machine has another name",
            ..FLAG
        },
        Argument {
            name: "PLAN",
            help: "the plan of this host",
            ..WORD
        },
        Argument {
            name: "ROOT",
            help: "the directory that the paths of the host's inventory begin at",
            ..WORD
        },
    ],
};

// verify [--all] --was PASSWD GROUP --now PASSWD GROUP BEFORE AFTER
const VERIFY: Subcommand = Subcommand {
    name: "verify",
    about: "Tells which files of an inventory have other owners by name in a later one",
    usage: None,
    arguments: &[
        Argument {
            name: "was",
            form: Form::Accounts,
            help: "the host's passwd and group before its numbers changed",
            ..WORD
        },
        Argument {
            name: "now",
            form: Form::Accounts,
            help: "its passwd and group with the new numbers",
            ..WORD
        },
        Argument {
            name: "all",
            help: "tells each file, and not the first ten of each kind alone",
            ..FLAG
        },
        Argument {
            name: "BEFORE",
            help: "the inventory made under the first files",
            ..WORD
        },
        Argument {
            name: "AFTER",
            help: "the inventory made under the second files, \
            or the directory that is there now",
            ..WORD
        },
    ],
};

static COMMANDS: [Subcommand; 7] = [COUNT, MERGE, CHECK, REHEARSE, INVENTORY, APPLY, VERIFY];

/// What help calls the values of --was and of --now.
const ACCOUNT_FILES: [&str; 2] = ["PASSWD", "GROUP"];

// An argument by its name, help and form.
fn formed<'a>(alloc: Global, argument: &Argument) -> Arg<'a> {
    let arg = Arg::new(alloc, argument.name).help(argument.help);
    match argument.form {
        Form::Word => arg,
        Form::Words => arg.num_args(1..),
        Form::Flag => arg.long(argument.name).action(ArgAction::SetTrue),
        Form::Value(value) => arg.long(argument.name).value_name(value),
        Form::Accounts => arg
            .long(argument.name)
            .num_args(2)
            .value_names(&ACCOUNT_FILES),
    }
}

// An argument that a letter names too, where there is one.
fn lettered<'a>(alloc: Global, argument: &Argument) -> Arg<'a> {
    let arg = formed(alloc, argument);
    match argument.letter {
        Some(letter) => arg.short(letter),
        None => arg,
    }
}

// An argument.
fn arg_of<'a>(alloc: Global, argument: &Argument) -> Result<Arg<'a>, AllocError> {
    let arg = lettered(alloc, argument);
    match argument.need {
        Need::Optional => Ok(arg),
        Need::Required => Ok(arg.required(true)),
        Need::Unless(other) => arg.required_unless_present(other),
    }
}

// Arguments, in order.
fn args_of<'a>(alloc: Global, arguments: &[Argument]) -> Result<Vec<Arg<'a>>, AllocError> {
    let mut args = Vec::new(alloc);
    for argument in arguments {
        args.push(arg_of(alloc, argument)?)?;
    }
    Ok(args)
}

// A command without its arguments.
fn bare<'a>(alloc: Global, subcommand: &Subcommand) -> Command<'a> {
    let command = Command::new(alloc, subcommand.name).about(subcommand.about);
    match subcommand.usage {
        Some(usage) => command.override_usage(usage),
        None => command,
    }
}

// A command.
fn command_of<'a>(alloc: Global, subcommand: &Subcommand) -> Result<Command<'a>, AllocError> {
    let args = args_of(alloc, subcommand.arguments)?;
    bare(alloc, subcommand).args(args)
}

// Commands, in order.
fn commands_of<'a>(
    alloc: Global,
    subcommands: &[Subcommand],
) -> Result<Vec<Command<'a>>, AllocError> {
    let mut commands = Vec::new(alloc);
    for subcommand in subcommands {
        commands.push(command_of(alloc, subcommand)?)?;
    }
    Ok(commands)
}

// The program without its commands.
fn program<'a>(alloc: Global) -> Command<'a> {
    Command::new(alloc, "unify")
        .version(VERSION)
        .about("One numbering for the accounts of many hosts")
        .after_help(
            "Without arguments unify reads a bundle from standard input: one command and its files \
            in one text.\n\n\
            Exit status: 0 done, 1 refused or differences found, 2 wrong arguments, 3 memory or a \
            file, 4 certificate rejected.\n\
            How to renumber a site is told in OPERATIONS.md, among the documents of unify.",
        )
        .subcommand_required(true)
}

/// The command line with arguments.
pub fn command_line<'a>(alloc: Global) -> Result<Command<'a>, AllocError> {
    let commands = commands_of(alloc, &COMMANDS)?;
    program(alloc).subcommands(commands)
}
