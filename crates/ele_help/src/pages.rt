//! The pages of help on policies and on limits. `tools/examples` runs the example.

/// What `elephant help policies` prints.
pub(crate) const POLICIES: &str = "\
A file's policy decides when an old version is due: when it may be removed. A
version ends when the next version of its file closes, or when the file loses
its last name. It ages from then.

  one                  due at once
  all                  never due
  safe:SECONDS         due so many seconds after its end
  safe:SECONDS/FLOOR   the same, but while the file has a name, FLOOR newer
                       versions must be held too
  landmarks:AGE/WIDTH,..
                       due once a newer version closed in the same span of WIDTH
                       seconds. The last pair whose AGE it has reached gives the
                       width. One to eight pairs: ages rise, and each width
                       divides the next

The current version, one that a handle reads, and one that a mark protects are
never due. A file gets the default of its directory, and the root's is
safe:86400, a day. 'policy P POL' changes a file's policy, 'default P POL' that
of files made in P later. Only 'clean' and 'pass' remove what is due, and 'due'
lists it.

Example, with a week in seconds:
    default / safe:604800    ok done
    create /f                ok file 1
    policy /f one            ok done
";

/// What `elephant help limits` prints.
pub(crate) const LIMITS: &str = "\
What was ever made counts for good: nothing that you remove, unlink or close
makes a number free again.

  What                           Most           Answer above it
  files ever made                100,000        no 27 Full files
  directories ever made          10,000         no 27 Full directories
  names ever made                200,000        no 27 Full names
  versions made and open drafts  1,000,000      no 27 Full versions
  handles ever opened            1,000,000      no 27 Full handles
  groups ever made               1,000          no 27 Full groups
  files ever added to groups     100,000        no 27 Full members
  marks ever made                10,000         no 27 Full marks
  events of a history            1,000,000      stop 2 HistoryFull; see --events
  lines of a run                 1,000,000      36 TooManyLines, status 1
  bytes of a run                 8,589,934,592  36 TooManyLines, status 1
  bytes of a line                8,192          bad 33 LineTooLong
  names of a path                32             bad 29 BadPath
  bytes of a name                64             bad 28 BadName
  bytes of a content             1,048,576      no 17 TooBig
  bytes of a note                200            no 17 TooBig

The root isn't one of the directories.
";
