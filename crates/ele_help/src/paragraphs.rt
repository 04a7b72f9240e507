//! What each command does and refuses, as `elephant help COMMAND` prints it. `tools/examples` runs the
//! examples.

/// What a command does, and an example or nothing, in the order of `Command`.
pub(crate) static PARAGRAPHS: [(&str, &str); 48] = [
    // ahead
    (
        "Lists what 'due' would list at M if only the clock moves. It needs the option\n--explain. NotAhead if M is earlier than now.",
        "\nExample:\n    create /f    ok file 1\n    ahead 100    ok ahead 0\n",
    ),
    // answers
    (
        "Prints how many events were folded (F), how many are stored (K), and each stored\none with its answer below its line. It needs the option --explain. It is never\nrefused.",
        "\nExample:\n    create /f    ok file 1\n    answers      ok answers 0 1\n                 - create /f\n                 ok file 1\n",
    ),
    // abandon
    (
        "Ends a handle that writes. If it was the last one that writes the file, the\ndraft is discarded and makes no version. NotWriter if the handle is one that\nreads: see 'close'.",
        "\nExample:\n    create /f        ok file 1\n    open write /f    ok handle 1\n    write 1 0 61     ok done\n    abandon 1        ok done\n    read /f          ok bytes 0 -\n",
    ),
    // clock
    (
        "Sets the clock to M. Only 'clock' and 'tick' move it. ClockBack if M is earlier\nthan now.",
        "\nExample:\n    clock 100    ok now 100 1970-01-01T00:01:40Z\n",
    ),
    // close
    (
        "Ends a handle. If it was the last one that writes the file and the draft was\nchanged, the draft becomes the current version. NoHandle if no open handle has\nthe number.",
        "\nExample:\n    create /f        ok file 1\n    open write /f    ok handle 1\n    write 1 0 61     ok done\n    close 1          ok closed version 2\n",
    ),
    // clean
    (
        "Removes the first version that 'due' lists, and prints its row. Nothing but\n'clean' and 'pass' removes versions. It is never refused.",
        "\nExample:\n    clean    ok nothing\n",
    ),
    // create
    (
        "Makes a file with an empty version 1. Its policy is the default of its\ndirectory. Exists if the name is in use, NoEntry if the directory isn't there.",
        "\nExample:\n    create /notes    ok file 1\n",
    ),
    // changes
    (
        "Lists what changed between the moments M and U: each name that was made, is\nback, or was linked, renamed, deleted or unlinked, and each file with another\nversion. The columns are the versions and the paths of M and of U; '-' is none.\n'forgotten' is a file of which neither version is held. With P only what is at P\nor below. It needs the option --explain. Future if U is later than now, NotAhead\nif it is earlier than M.",
        "\nExample:\n    clock 5        ok now 5 1970-01-01T00:00:05Z\n    create /f      ok file 1\n    changes 4 5    ok changes 1\n                   - made file 1 - 1 - /f\n",
    ),
    // due
    (
        "Lists the versions that may be removed now: since when, the file, and the\nversion. You can still read them. 'ahead M' lists those of a later moment, and\nneeds the option --explain. It is never refused.",
        "\nExample:\n    due    ok due 0\n",
    ),
    // default
    (
        "Sets the policy of files and directories that are made in P later.\n'elephant help policies' explains POL. NotDirectory if P is a file.",
        "\nExample:\n    default / safe:3600    ok done\n",
    ),
    // expiring
    (
        "Lists what 'ahead M' lists, with the path of each file: the one that leads to it\nnow or, if none does, the last one that did, and until when ('-' if it still\nleads there). 'expiring' of now is 'due' with paths. It needs the option\n--explain. NotAhead if M is earlier than now.",
        "\nExample:\n    save /f 61        ok version 2\n    expiring 86400    ok expiring 1\n                      - 86400 1 1 /f -\n",
    ),
    // group make
    (
        "Makes an empty group. GroupExists if a group has the name.",
        "\nExample:\n    group make release    ok done\n",
    ),
    // group drop
    (
        "Removes a group with its marks. The policies then decide at once. NoGroup if no\ngroup has the name.",
        "",
    ),
    // group add
    (
        "Adds the file at P to a group. Its marks protect the file too. AlreadyMember if\nthe file is in it.",
        "\nExample:\n    create /f               ok file 1\n    group make release      ok done\n    group add release /f    ok done\n",
    ),
    // group remove
    (
        "Takes the file at P out of a group, whose marks don't protect it any more.\nNotMember if it isn't in it.",
        "",
    ),
    // groups
    (
        "Lists the groups with the numbers of their files and the moments of their\nmarks. It is never refused.",
        "\nExample:\n    groups    ok groups 0\n",
    ),
    // gone
    (
        "Lists the versions that the stored events removed: when, the file, the version,\nthe path that the file had then, and why it was due. 'held G M' before the fate\nis the mark that held it longer than its policy. No version is removed while a\nmark covers it that has not ended. It needs the option --explain. It is never\nrefused.",
        "\nExample:\n    gone    ok gone 0 0\n",
    ),
    // history
    (
        "Prints how many events were folded (F), how many are stored (K), and the line\nof each stored one. If F is 0, the lines are a script that rebuilds the store.\nIt is never refused.",
        "",
    ),
    // handles
    (
        "Lists the open handles: the handle, the file, the version that it reads or\n'draft', since when, and the path. The draft counts from its first writer. It\nneeds the option --explain. It is never refused.",
        "\nExample:\n    create /f        ok file 1\n    open write /f    ok handle 1\n    handles          ok handles 1\n                     - 1 1 draft 0 /f\n",
    ),
    // link
    (
        "Gives the file at P the name Q too. All names of a file are equal. Exists if Q\nis in use, IsDirectory if P is a directory.",
        "\nExample:\n    create /f     ok file 1\n    link /f /g    ok done\n",
    ),
    // list
    (
        "Lists the names in a directory, now or at the moment of /path@M. NotDirectory\nif A is a file, Future if the moment is later than now.",
        "\nExample:\n    create /f    ok file 1\n    list /       ok names 1\n                 - f file 1\n",
    ),
    // mark
    (
        "Protects the version of each file in the group that was current at M, for good\nor until U. M must be earlier than now (NotPast), and U later (NotAhead).\nMarkExists if the group has a mark for M.",
        "\nExample:\n    group make g    ok done\n    clock 9         ok now 9 1970-01-01T00:00:09Z\n    mark g 3        ok done\n    mark g 4 20     ok done\n",
    ),
    // mkdir
    (
        "Makes a directory. Its default is that of the directory that it is in. Exists\nif the name is in use.",
        "\nExample:\n    mkdir /docs    ok directory 1\n",
    ),
    // note
    (
        "Puts the bytes X, at most 200, into the history: who makes the next changes,\nsay, and why. It changes nothing else, and 'history' and 'answers' print it. X\nis two hexadecimal digits for each byte: 6f7073 is ops. TooBig if it is longer.",
        "\nExample:\n    note 6f7073    ok done\n",
    ),
    // open write
    (
        "Opens a handle that writes the file's draft, which all writers share. Handles\nare numbered from 1 over all files. 'close' saves the draft. IsDirectory if P\nis a directory.",
        "\nExample:\n    create /f        ok file 1\n    open write /f    ok handle 1\n",
    ),
    // open read
    (
        "Opens a handle on the version that T means now. It isn't removed until its last\nhandle is closed. Forgotten if the version was removed.",
        "\nExample:\n    create /f         ok file 1\n    open read /f#1    ok handle 1\n",
    ),
    // pass
    (
        "Repeats 'clean' until nothing is due (finished) or N versions are removed\n(budget). It is never refused.",
        "\nExample:\n    pass 100    ok pass finished 0\n",
    ),
    // policy
    (
        "Gives a file another policy, which decides at once about all held versions.\n'elephant help policies' explains POL. IsDirectory if P is a directory: see\n'default'.",
        "\nExample:\n    create /f        ok file 1\n    policy /f all    ok done\n",
    ),
    // read
    (
        "Prints the length and the bytes of a version, now (/f), at a moment (/f@M) or\nby its number (/f#V), or what a handle reads. If several versions closed in one\nsecond, /f@M means the last of them; the others have numbers. Forgotten N if\nthe version was removed.",
        "\nExample:\n    create /f    ok file 1\n    read /f      ok bytes 0 -\n    read /f#1    ok bytes 0 -\n",
    ),
    // rename
    (
        "Moves a file or a directory, with all that is in it. It never replaces what is\nat Q: that is Exists.",
        "\nExample:\n    create /f       ok file 1\n    rename /f /g    ok done\n",
    ),
    // revert
    (
        "Makes a version with the content of version V of the file at P. Drafting if a\nhandle writes the file, Forgotten if V was removed.",
        "\nExample:\n    create /f        ok file 1\n    open write /f    ok handle 1\n    write 1 0 61     ok done\n    close 1          ok closed version 2\n    open write /f    ok handle 2\n    write 2 0 62     ok done\n    close 2          ok closed version 3\n    read /f          ok bytes 1 62\n    revert /f 2      ok version 4\n    read /f          ok bytes 1 61\n",
    ),
    // restore
    (
        "Makes what P held at M its newest version. If P named nothing then, it is what\nthe file at P held under another name. A deleted name comes back. Drafting if a\nhandle writes the file, Forgotten if that version was removed.",
        "\nExample:\n    save /f 61      ok version 2\n    tick 9          ok now 9 1970-01-01T00:00:09Z\n    save /f 62      ok version 3\n    restore /f 8    ok version 4\n    read /f         ok bytes 1 61\n",
    ),
    // rmdir
    (
        "Deletes the name of a directory. NotEmpty if something in it has a name.",
        "\nExample:\n    mkdir /d    ok directory 1\n    rmdir /d    ok done\n",
    ),
    // restorable
    (
        "Lists the deleted names that 'undelete' can restore. It is never refused.",
        "\nExample:\n    create /f     ok file 1\n    unlink /f     ok done\n    restorable    ok restorable 1\n                  - 0 f file 1\n",
    ),
    // removals
    (
        "Lists the versions that the stored events removed, as 'gone' does, with the last\npath of the file: the one that led to it just before, or the last one that did,\nand until when ('-' if it still led there). It needs the option --explain. It is\nnever refused.",
        "\nExample:\n    default / one    ok done\n    create /f        ok file 1\n    unlink /f        ok done\n    clean            ok removed 0 1 1\n    removals         ok removals 0 1\n                     - 0 1 1 /f 0 due 0 at once\n",
    ),
    // save
    (
        "Makes a version of the file at P with the bytes X, without a handle. If P names\nnothing, it makes the file, with an empty version 1 before this one. Drafting if\na handle writes the file, IsDirectory if P is a directory.",
        "\nExample:\n    save /f 6869    ok version 2\n    save /f 686f    ok version 3\n    read /f#2       ok bytes 2 6869\n",
    ),
    // stat
    (
        "Prints when a version's draft was opened, when it closed and when it ended (-\nfor the current one), and the policy of its file; of a directory, the number\nand the default.",
        "\nExample:\n    stat /    ok directory 0 default safe:86400\n",
    ),
    // story
    (
        "Tells what is known of the file at P or, if P names none, of the file that P\nnamed last: a line for each version, and one for each name, live or deleted.\nBefore its fate a removed version has 'removed MOMENT', and one that a mark held\nlonger than its policy 'held G M'. It needs the option --explain. NoEntry if P\nnever named a file.",
        "\nExample:\n    create /f    ok file 1\n    story /f     ok story 1 2\n                 - version 1 0 - 0 current\n                 - name 0 - /f\n",
    ),
    // tick
    (
        "Moves the clock by N seconds. 'tick 0' prints the time. ClockEnd if that is\nlater than the year 9999.",
        "\nExample:\n    tick 60    ok now 60 1970-01-01T00:01:00Z\n",
    ),
    // truncate
    (
        "Cuts the draft of a handle to N bytes, or fills it with zeros. To save a whole\nnew content that is too long for one line of 'save', send 'truncate H 0' and\nthen the writes. NotWriter if the handle is one that reads.",
        "\nExample:\n    create /f        ok file 1\n    open write /f    ok handle 1\n    truncate 1 4     ok done\n    close 1          ok closed version 2\n",
    ),
    // trim
    (
        "Folds the stored events of the history, which frees their memory. Later answers\nstay the same. K says how many events an audit loses: 'history' and 'answers'\nno longer have them. It is never refused.",
        "\nExample:\n    create /f    ok file 1\n    trim         ok trimmed 1\n",
    ),
    // unlink
    (
        "Deletes a name of a file. With the last name its current version ends.\n'undelete' restores the name. IsDirectory if P is a directory: see 'rmdir'.",
        "\nExample:\n    create /f    ok file 1\n    unlink /f    ok done\n",
    ),
    // undelete
    (
        "Restores the last thing that had the name P. A file without any name also gets\na version with its last content. NotRestorable if nothing can be restored,\nExists if the name is in use.",
        "\nExample:\n    create /f      ok file 1\n    unlink /f      ok done\n    undelete /f    ok version 2\n",
    ),
    // unmark
    (
        "Removes the mark of a group for the moment M. The policies then decide at once.\nNoMark if there is none.",
        "",
    ),
    // usage
    (
        "Prints, for each kind of policy, how many files have it, how many versions of\nthese are held, and how many bytes and blocks they have. It is never refused.",
        "\nExample:\n    create /f        ok file 1\n    open write /f    ok handle 1\n    write 1 0 61     ok done\n    close 1          ok closed version 2\n    usage            ok usage 4\n                     - one 0 0 0 0\n                     - all 0 0 0 0\n                     - safe 1 2 1 1\n                     - landmarks 0 0 0 0\n",
    ),
    // versions
    (
        "Lists the held versions of a file: number, opened, closed, ended or -, and\nlength. With /path@M it is the file that had the name then.",
        "\nExample:\n    create /f      ok file 1\n    versions /f    ok versions 1\n                   - 1 0 0 - 0\n",
    ),
    // write
    (
        "Overwrites the draft of a handle from offset N by the bytes X, two hexadecimal\ndigits for each: 6869 is hi. In a shell, printf 'hi' | xxd -p prints the\ndigits, and printf 6869 | xxd -r -p the text. A gap is filled with zeros.\nNotWriter if the handle is one that reads, TooBig above 1,048,576 bytes.",
        "\nExample:\n    create /f        ok file 1\n    open write /f    ok handle 1\n    write 1 0 6869   ok done\n    close 1          ok closed version 2\n    read /f          ok bytes 2 6869\n",
    ),
    // why
    (
        "Prints why a version stays, since when it may be removed, or why it was. 'held G\nM' before the fate is the mark that held it longer than its policy. It needs the\noption --explain. It is refused as 'read' is.",
        "\nExample:\n    create /f    ok file 1\n    why /f       ok why current\n",
    ),
];
