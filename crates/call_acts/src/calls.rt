//! The table of calls: the number of each call, what kind of call it is, and where it has its flags.
//!
//! What a call does depends on its row alone. The definitions in specs/ read the same table, so a call of a kind that is
//! there is one row more.
ghost use Rattle.std.specs.Prelude.{◌≡◌, ◌<◌, true, length};
ghost use Rattle.call_acts.specs.Calls.{ascend, call_of, flags_of, row_at, row_with};

use audit_record::Syscall;

/// What kind of call a call is. Calls of one kind do the same, except for where they have their flags.
#[derive(Clone, Copy, Debug, PartialEq, Eq)]
pub enum Call {
    /// Takes from a descriptor.
    Read,
    /// Takes from a peer, or else from a descriptor.
    Receive,
    /// Gives to a descriptor.
    Write,
    /// Gives to a peer, or else to a descriptor.
    Send,
    /// Takes from its second argument and gives to its first.
    SendFile,
    /// Takes from its first argument and gives to its second.
    Tee,
    /// Takes from its first argument and gives to its third.
    Splice,
    /// Opens the path that its event names.
    Open,
    /// Closes a descriptor.
    Close,
    /// Copies a descriptor, also to itself.
    Dup,
    /// Copies a descriptor to another one.
    Dup2,
    /// Copies a descriptor to another one, with flags.
    Dup3,
    /// Copies or marks a descriptor, by its command.
    Fcntl,
    /// Opens two descriptors.
    Pair,
    /// Opens a socket.
    Socket,
    /// Gives a socket an address.
    Bind,
    /// Gives a socket the address of its peer.
    Connect,
    /// Opens a socket of a listener.
    Accept,
    /// Runs a program.
    Exec,
    /// Makes a process.
    Fork,
    /// Makes a process, or a thread if its flags say so.
    Clone,
    /// Ends its process.
    Exit,
    /// Maps a file.
    Map,
    /// Alters the file of a path.
    AlterPath,
    /// Alters the file of a descriptor.
    AlterFd,
    /// Gives files another name or a further one.
    Rename,
    /// Takes names away from files.
    Remove,
    /// Makes files, without opening them.
    MakePath,
}

/// Where a call has the flags that its kind asks for.
#[derive(Clone, Copy, Debug, PartialEq, Eq)]
pub enum Flags {
    /// Nowhere that its record shows, if it has any.
    Absent,
    /// It always has `TRUNCATE`.
    Truncate,
    /// In its first argument.
    A0,
    /// In its second argument.
    A1,
    /// In its third argument.
    A2,
    /// In its fourth argument.
    A3,
}

/// A row of the table of calls.
#[derive(Clone, Copy, Debug, PartialEq, Eq)]
pub struct Row {
    pub number: u32,
    pub call: Call,
    pub flags: Flags,
}

// The architecture whose calls the table has: x86-64, as records write it.
const ARCH: u32 = 0xc000_003e;

/// The flag of an open that empties the file.
pub const TRUNCATE: u64 = 0x200;

// The calls, with ascending numbers. The flags of openat2 and clone3 lie in memory that no record shows.
#[rattlefmt::skip]
static ROWS: [Row; 66] = [
    Row { number: 0, call: Call::Read, flags: Flags::Absent }, // read
    Row { number: 1, call: Call::Write, flags: Flags::Absent }, // write
    Row { number: 2, call: Call::Open, flags: Flags::A1 }, // open
    Row { number: 3, call: Call::Close, flags: Flags::Absent }, // close
    Row { number: 9, call: Call::Map, flags: Flags::A3 }, // mmap
    Row { number: 17, call: Call::Read, flags: Flags::Absent }, // pread64
    Row { number: 18, call: Call::Write, flags: Flags::Absent }, // pwrite64
    Row { number: 19, call: Call::Read, flags: Flags::Absent }, // readv
    Row { number: 20, call: Call::Write, flags: Flags::Absent }, // writev
    Row { number: 22, call: Call::Pair, flags: Flags::Absent }, // pipe
    Row { number: 32, call: Call::Dup, flags: Flags::Absent }, // dup
    Row { number: 33, call: Call::Dup2, flags: Flags::Absent }, // dup2
    Row { number: 40, call: Call::SendFile, flags: Flags::Absent }, // sendfile
    Row { number: 41, call: Call::Socket, flags: Flags::A1 }, // socket
    Row { number: 42, call: Call::Connect, flags: Flags::Absent }, // connect
    Row { number: 43, call: Call::Accept, flags: Flags::Absent }, // accept
    Row { number: 44, call: Call::Send, flags: Flags::Absent }, // sendto
    Row { number: 45, call: Call::Receive, flags: Flags::Absent }, // recvfrom
    Row { number: 46, call: Call::Send, flags: Flags::Absent }, // sendmsg
    Row { number: 47, call: Call::Receive, flags: Flags::Absent }, // recvmsg
    Row { number: 49, call: Call::Bind, flags: Flags::Absent }, // bind
    Row { number: 53, call: Call::Pair, flags: Flags::A1 }, // socketpair
    Row { number: 56, call: Call::Clone, flags: Flags::A0 }, // clone
    Row { number: 57, call: Call::Fork, flags: Flags::Absent }, // fork
    Row { number: 58, call: Call::Fork, flags: Flags::Absent }, // vfork
    Row { number: 59, call: Call::Exec, flags: Flags::Absent }, // execve
    Row { number: 72, call: Call::Fcntl, flags: Flags::Absent }, // fcntl
    Row { number: 76, call: Call::AlterPath, flags: Flags::Absent }, // truncate
    Row { number: 77, call: Call::AlterFd, flags: Flags::Absent }, // ftruncate
    Row { number: 82, call: Call::Rename, flags: Flags::Absent }, // rename
    Row { number: 83, call: Call::MakePath, flags: Flags::Absent }, // mkdir
    Row { number: 84, call: Call::Remove, flags: Flags::Absent }, // rmdir
    Row { number: 85, call: Call::Open, flags: Flags::Truncate }, // creat
    Row { number: 86, call: Call::Rename, flags: Flags::Absent }, // link
    Row { number: 87, call: Call::Remove, flags: Flags::Absent }, // unlink
    Row { number: 88, call: Call::MakePath, flags: Flags::Absent }, // symlink
    Row { number: 90, call: Call::AlterPath, flags: Flags::Absent }, // chmod
    Row { number: 91, call: Call::AlterFd, flags: Flags::Absent }, // fchmod
    Row { number: 92, call: Call::AlterPath, flags: Flags::Absent }, // chown
    Row { number: 93, call: Call::AlterFd, flags: Flags::Absent }, // fchown
    Row { number: 94, call: Call::AlterPath, flags: Flags::Absent }, // lchown
    Row { number: 133, call: Call::MakePath, flags: Flags::Absent }, // mknod
    Row { number: 231, call: Call::Exit, flags: Flags::Absent }, // exit_group
    Row { number: 257, call: Call::Open, flags: Flags::A2 }, // openat
    Row { number: 258, call: Call::MakePath, flags: Flags::Absent }, // mkdirat
    Row { number: 259, call: Call::MakePath, flags: Flags::Absent }, // mknodat
    Row { number: 260, call: Call::AlterPath, flags: Flags::Absent }, // fchownat
    Row { number: 263, call: Call::Remove, flags: Flags::Absent }, // unlinkat
    Row { number: 264, call: Call::Rename, flags: Flags::Absent }, // renameat
    Row { number: 265, call: Call::Rename, flags: Flags::Absent }, // linkat
    Row { number: 266, call: Call::MakePath, flags: Flags::Absent }, // symlinkat
    Row { number: 268, call: Call::AlterPath, flags: Flags::Absent }, // fchmodat
    Row { number: 275, call: Call::Splice, flags: Flags::Absent }, // splice
    Row { number: 276, call: Call::Tee, flags: Flags::Absent }, // tee
    Row { number: 288, call: Call::Accept, flags: Flags::A3 }, // accept4
    Row { number: 292, call: Call::Dup3, flags: Flags::A2 }, // dup3
    Row { number: 293, call: Call::Pair, flags: Flags::A1 }, // pipe2
    Row { number: 295, call: Call::Read, flags: Flags::Absent }, // preadv
    Row { number: 296, call: Call::Write, flags: Flags::Absent }, // pwritev
    Row { number: 316, call: Call::Rename, flags: Flags::Absent }, // renameat2
    Row { number: 322, call: Call::Exec, flags: Flags::Absent }, // execveat
    Row { number: 326, call: Call::Splice, flags: Flags::Absent }, // copy_file_range
    Row { number: 327, call: Call::Read, flags: Flags::Absent }, // preadv2
    Row { number: 328, call: Call::Write, flags: Flags::Absent }, // pwritev2
    Row { number: 435, call: Call::Fork, flags: Flags::Absent }, // clone3
    Row { number: 437, call: Call::Open, flags: Flags::Absent }, // openat2
];

/// The kind of a call, by its architecture and its number.
pub fn call_of(arch: u32, number: u32) -> Option<Call>
    ensures { result ≡ call_of arch number }
{
    Some(row_at(arch, number)?.call)
}

/// The row of a call, by its architecture and its number.
pub fn row_at(arch: u32, number: u32) -> Option<Row>
    ensures { result ≡ row_at arch number }
{
    if arch == ARCH {
        row_with(number, &ROWS)
    } else {
        None
    }
}

/// The flags of a call, by where its row says that they are.
pub fn flags_of(flags: Flags, call: &Syscall) -> u64
    ensures { result ≡ flags_of flags call.now }
{
    match flags {
        Flags::Absent => 0,
        Flags::Truncate => TRUNCATE,
        Flags::A0 => call.a0,
        Flags::A1 => call.a1,
        Flags::A2 => call.a2,
        Flags::A3 => call.a3,
    }
}

// The first of these rows that has the number. The smallest numbers, which most logs have most, stand at their own
// places.
fn row_with(number: u32, rows: &[Row]) -> Option<Row>
    requires { ascend rows.now ≡ true }
    ensures { result ≡ row_with number rows.now }
{
    match rows.get(number as usize) {
        Some(row) if row.number == number => Some(*row),
        _ => row_among(number, rows),
    }
}

// The same by halving the rows until at most one is left.
fn row_among(number: u32, rows: &[Row]) -> Option<Row>
    requires { ascend rows.now ≡ true }
    ensures { result ≡ row_with number rows.now }
{
    let mut left = rows;
    while left.len() > 1 {
        left = half_with(number, left);
    }
    match left.first() {
        Some(row) if row.number == number => Some(*row),
        _ => None,
    }
}

// The half of these rows that has the number, if one has it.
fn half_with(number: u32, rows: &[Row]) -> &[Row]
    requires ascend { ascend rows.now ≡ true }
    requires several { 1 < length rows.now }
    ensures same { row_with number result.now ≡ row_with number rows.now }
    ensures ascend { ascend result.now ≡ true }
    ensures less { length result.now < length rows.now }
{
    let (front, back) = rows.split_at(rows.len() / 2);
    if number < back[0].number { front } else { back }
}
