//! What the program prints of itself.
ghost use Rattle.std.specs.Prelude.{◌≡◌, None, IfSome};
ghost use Rattle.program_words.specs.Forms.{form_on};
ghost use Rattle.program_words.specs.Notices.{notice_in, notice_of_word, text_of};

const HELP: &str = "sharder: a cluster of sharded, event-sourced entities with reliable delivery

  sharder solo         reads a script of settings, sends and deliveries, and writes
                       the report of what is recorded
  sharder replay       reads a script of settings and orders, plays it on all nodes,
                       one step after the other, and writes the trace and the report
  sharder replay json  does the same, and writes the report alone, as JSON
  sharder live TURNS SEED
                       does what a script of orders says with a thread for each node,
                       each for TURNS turns at most (1 to 100000), where what nodes post
                       is lost, repeated and delayed as SEED (0 to 4294967295) has it;
                       then settles, and writes each slot's list and the report
  sharder bulk NUMBER  plays the script of a number, 1 to 1000, in the same way as
                       replay, and writes counts of what happened; it reads nothing
  sharder log          does as replay does, with what each order does to the slots
                       on disk, in sharder.log, before a line of it is written
  sharder resume       reads a script and sharder.log, and writes the report of what
                       the log has; then goes on from there until every send is
                       recorded and confirmed, and writes each slot's list and the report
  sharder apply        reads a script, and brings sharder.log up to it: carries out each
                       send that isn't recorded and confirmed there, puts that on disk as
                       one batch, and then writes the report of what is on disk
  sharder pull         reads a script of jobs and workers, plays it one step after the
                       other, and writes the trace and what became of each job
  sharder daemon COUNT plays a script of orders and pings in the same way, of COUNT
                       numbered instances (1 to 100) that pings keep running, and
                       writes after each line which of them are elsewhere now
  sharder --help       prints this
  sharder --version    prints the name and the version

Status: 0 the whole text was written, 2 usage, 3 the input is no script (standard
error has the line and the reason's number), 4 a read failed, 5 a write failed,
6 there was no memory, 7 the trace stopped at the 1,000,000 packets that can be
posted, 8 the disk failed, 9 there is a log already, 10 the log is damaged and 11
it is of another script (standard error has the place, the batch).

Reasons of status 3: 1 a byte that is no text, 2 a line of more than 256 bytes,
3 no config, 4 a second config, 5 an unknown word, 6 a missing word, 7 a word too
many, 8 no number, 9 out of range, 10 no name, 11 more than 20000 lines, 12 more
than 4 MiB, 13 no order of this command, 15 a second
job of a name (pull), 16 no counters (daemon), 17 more than
1000 pings.

Examples, in a clone, with ./run.sh in the place of sharder:

  sharder replay < examples/failover.txt
  sharder live 2000 7 < examples/live.txt

The program judge (./run.sh judge) says of any trace whether it is safe: judge --help.
Read on in docs/SCRIPT.md (how to write a script), docs/TRACE.md (how to read a trace).
";

const VERSION: &str = "sharder 0.1.0\n";

/// What the program prints of itself, where it is asked for that.
#[derive(Clone, Copy, Debug, PartialEq, Eq)]
pub enum Notice {
    /// `--help`
    Help,
    /// `--version`
    Version,
}

impl Notice {
    /// Its text.
    pub fn text(self) -> &'static str
        ensures { result.now ≡ text_of self }
    {
        match self {
            Notice::Help => HELP,
            Notice::Version => VERSION,
        }
    }
}

/// The notice that the words after the program's name ask for, if they do. They are no form then.
pub fn notice_of(words: &[String]) -> Option<Notice>
    ensures notice { result ≡ notice_in words.now }
    ensures no_form { IfSome result (λ n. form_on words.now ≡ None) }
{
    match words {
        [word] => notice_of_word(word.as_str()),
        _ => None,
    }
}

fn notice_of_word(word: &str) -> Option<Notice>
    ensures notice { result ≡ notice_of_word word.now }
{
    if word == "--help" {
        Some(Notice::Help)
    } else if word == "--version" {
        Some(Notice::Version)
    } else {
        None
    }
}
