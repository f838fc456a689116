//! Runs over objects in memory: what is written, and how the run ends.
use super::*;
use flow_base::{Bytes, List};
use outside::{MemSink, MemSource};
use std::test::Fail;

// All rules are on.
const ON: Switches = Switches {
    join: true,
    apart: true,
    names: true,
    own: true,
    compat: true,
};

// A process reads, and may have waited for what another one wrote later. Then it writes itself.
const WAITED: &[u8] =
    b"type=SYSCALL msg=audit(1.010:4): arch=c000003e syscall=1 a0=4 a1=0 a2=1 a3=0 ppid=1 pid=30\n\
type=SYSCALL msg=audit(1.000:5): arch=c000003e syscall=0 a0=3 a1=0 a2=1 a3=0 ppid=1 pid=10\n\
type=SYSCALL msg=audit(1.005:6): arch=c000003e syscall=1 a0=4 a1=0 a2=1 a3=0 ppid=1 pid=20\n\
type=SYSCALL msg=audit(1.006:7): arch=c000003e syscall=1 a0=4 a1=0 a2=1 a3=0 ppid=1 pid=10\n";

const WAITED_ORDERED: &[u8] =
    b"type=SYSCALL msg=audit(1.005:6): arch=c000003e syscall=1 a0=4 a1=0 a2=1 a3=0 ppid=1 pid=20\n\
type=EOE msg=audit(1.005:6): \n\
type=SYSCALL msg=audit(1.010:4): arch=c000003e syscall=1 a0=4 a1=0 a2=1 a3=0 ppid=1 pid=30\n\
type=EOE msg=audit(1.010:4): \n\
type=SYSCALL msg=audit(1.010:5): arch=c000003e syscall=0 a0=3 a1=0 a2=1 a3=0 ppid=1 pid=10\x1dWAS={ audit(1.000:5) }\n\
type=EOE msg=audit(1.010:5): \x1dWAS={ audit(1.000:5) }\n\
type=SYSCALL msg=audit(1.010:7): arch=c000003e syscall=1 a0=4 a1=0 a2=1 a3=0 ppid=1 pid=10\x1dWAS={ audit(1.006:7) }\n\
type=EOE msg=audit(1.010:7): \x1dWAS={ audit(1.006:7) }\n";

// The same, if no bytes may wait: the write of the third line comes after a later one.
const WAITED_AT_ONCE: &[u8] =
    b"type=SYSCALL msg=audit(1.010:4): arch=c000003e syscall=1 a0=4 a1=0 a2=1 a3=0 ppid=1 pid=30\n\
type=EOE msg=audit(1.010:4): \n\
type=SYSCALL msg=audit(1.010:5): arch=c000003e syscall=0 a0=3 a1=0 a2=1 a3=0 ppid=1 pid=10\x1dWAS={ audit(1.000:5) }\n\
type=EOE msg=audit(1.010:5): \x1dWAS={ audit(1.000:5) }\n\
type=SYSCALL msg=audit(1.010:6): arch=c000003e syscall=1 a0=4 a1=0 a2=1 a3=0 ppid=1 pid=20\x1dWAS={ audit(1.005:6) }\n\
type=EOE msg=audit(1.010:6): \x1dWAS={ audit(1.005:6) }\n\
type=SYSCALL msg=audit(1.010:7): arch=c000003e syscall=1 a0=4 a1=0 a2=1 a3=0 ppid=1 pid=10\x1dWAS={ audit(1.006:7) }\n\
type=EOE msg=audit(1.010:7): \x1dWAS={ audit(1.006:7) }\n";

const WAITED_UNDONE: &[u8] =
    b"type=SYSCALL msg=audit(1.005:6): arch=c000003e syscall=1 a0=4 a1=0 a2=1 a3=0 ppid=1 pid=20\n\
type=EOE msg=audit(1.005:6): \n\
type=SYSCALL msg=audit(1.010:4): arch=c000003e syscall=1 a0=4 a1=0 a2=1 a3=0 ppid=1 pid=30\n\
type=EOE msg=audit(1.010:4): \n\
type=SYSCALL msg=audit(1.000:5): arch=c000003e syscall=0 a0=3 a1=0 a2=1 a3=0 ppid=1 pid=10\n\
type=EOE msg=audit(1.000:5): \n\
type=SYSCALL msg=audit(1.006:7): arch=c000003e syscall=1 a0=4 a1=0 a2=1 a3=0 ppid=1 pid=10\n\
type=EOE msg=audit(1.006:7): \n";

// After a vfork the records of the child come first, here in one millisecond with the fork and a call of the parent before it.
const FORKED: &[u8] =
    b"type=SYSCALL msg=audit(1.000:3): arch=c000003e syscall=1 success=yes exit=1 a0=4 a1=0 a2=1 a3=0 ppid=1 pid=10\n\
type=SYSCALL msg=audit(1.000:4): arch=c000003e syscall=0 success=yes exit=1 a0=3 a1=0 a2=1 a3=0 ppid=10 pid=20\n\
type=SYSCALL msg=audit(1.000:5): arch=c000003e syscall=58 success=yes exit=20 a0=0 a1=0 a2=0 a3=0 ppid=1 pid=10\n";

const FORKED_ORDERED: &[u8] =
    b"type=SYSCALL msg=audit(1.000:3): arch=c000003e syscall=1 success=yes exit=1 a0=4 a1=0 a2=1 a3=0 ppid=1 pid=10\n\
type=EOE msg=audit(1.000:3): \n\
type=SYSCALL msg=audit(1.000:5): arch=c000003e syscall=58 success=yes exit=20 a0=0 a1=0 a2=0 a3=0 ppid=1 pid=10\n\
type=EOE msg=audit(1.000:5): \n\
type=SYSCALL msg=audit(1.000:4): arch=c000003e syscall=0 success=yes exit=1 a0=3 a1=0 a2=1 a3=0 ppid=10 pid=20\n\
type=EOE msg=audit(1.000:4): \n";

// The serial numbers begin again after a boot.
const BOOTS: &[u8] =
    b"type=SYSCALL msg=audit(900.000:9): arch=c000003e syscall=1 a0=4 a1=0 a2=1 a3=0 ppid=1 pid=10\n\
type=SYSCALL msg=audit(1000.000:9): arch=c000003e syscall=1 a0=4 a1=0 a2=1 a3=0 ppid=1 pid=10\n";

const BOOTS_ORDERED: &[u8] =
    b"type=SYSCALL msg=audit(900.000:9): arch=c000003e syscall=1 a0=4 a1=0 a2=1 a3=0 ppid=1 pid=10\n\
type=EOE msg=audit(900.000:9): \n\
type=SYSCALL msg=audit(1000.000:9): arch=c000003e syscall=1 a0=4 a1=0 a2=1 a3=0 ppid=1 pid=10\n\
type=EOE msg=audit(1000.000:9): \n";

const NODES: &[u8] =
    b"node=a type=SYSCALL msg=audit(5.000:7): arch=c000003e syscall=1 a0=4 a1=0 a2=1 a3=0 ppid=1 pid=10\n\
node=b type=SYSCALL msg=audit(4.990:3): arch=c000003e syscall=1 a0=4 a1=0 a2=1 a3=0 ppid=1 pid=20\n";

const NODES_ORDERED: &[u8] =
    b"node=b type=SYSCALL msg=audit(4.990:3): arch=c000003e syscall=1 a0=4 a1=0 a2=1 a3=0 ppid=1 pid=20\n\
node=b type=EOE msg=audit(4.990:3): \n\
node=a type=SYSCALL msg=audit(5.000:7): arch=c000003e syscall=1 a0=4 a1=0 a2=1 a3=0 ppid=1 pid=10\n\
node=a type=EOE msg=audit(5.000:7): \n";

// Two nodes have an event of one time and one serial number.
const TWINS: &[u8] =
    b"node=a type=SYSCALL msg=audit(5.000:7): arch=c000003e syscall=1 a0=4 a1=0 a2=1 a3=0 ppid=1 pid=10\n\
node=b type=SYSCALL msg=audit(5.000:7): arch=c000003e syscall=1 a0=4 a1=0 a2=1 a3=0 ppid=1 pid=10\n\
node=a type=PATH msg=audit(5.000:7): name=\"a\"\n\
node=b type=PROCTITLE msg=audit(5.000:7): proctitle=\"b\"\n";

const TWINS_ORDERED: &[u8] =
    b"node=a type=SYSCALL msg=audit(5.000:7): arch=c000003e syscall=1 a0=4 a1=0 a2=1 a3=0 ppid=1 pid=10\n\
node=a type=PATH msg=audit(5.000:7): name=\"a\"\n\
node=a type=EOE msg=audit(5.000:7): \n\
node=b type=SYSCALL msg=audit(5.000:7): arch=c000003e syscall=1 a0=4 a1=0 a2=1 a3=0 ppid=1 pid=10\n\
node=b type=PROCTITLE msg=audit(5.000:7): proctitle=\"b\"\n";

// A node is started anew with its clock set back. A read then doesn't count at the time from before.
const STARTED: &[u8] =
    b"type=SYSCALL msg=audit(9.000:8): arch=c000003e syscall=1 a0=4 a1=0 a2=1 a3=0 ppid=1 pid=10\n\
type=SYSTEM_BOOT msg=audit(5.000:1): pid=1\n\
type=SYSCALL msg=audit(5.003:3): arch=c000003e syscall=0 a0=4 a1=0 a2=1 a3=0 ppid=1 pid=10\n\
type=SYSCALL msg=audit(5.004:2): arch=c000003e syscall=1 a0=4 a1=0 a2=1 a3=0 ppid=1 pid=20\n";

const STARTED_ORDERED: &[u8] =
    b"type=SYSCALL msg=audit(9.000:8): arch=c000003e syscall=1 a0=4 a1=0 a2=1 a3=0 ppid=1 pid=10\n\
type=EOE msg=audit(9.000:8): \n\
type=SYSTEM_BOOT msg=audit(9.000:1): pid=1\x1dWAS={ audit(5.000:1) }\n\
type=SYSCALL msg=audit(9.000:3): arch=c000003e syscall=0 a0=4 a1=0 a2=1 a3=0 ppid=1 pid=10\x1dWAS={ audit(5.003:3) }\n\
type=EOE msg=audit(9.000:3): \x1dWAS={ audit(5.003:3) }\n\
type=SYSCALL msg=audit(9.000:2): arch=c000003e syscall=1 a0=4 a1=0 a2=1 a3=0 ppid=1 pid=20\x1dWAS={ audit(5.004:2) }\n\
type=EOE msg=audit(9.000:2): \x1dWAS={ audit(5.004:2) }\n";

// The blank line follows the line before it.
const BLANK: &[u8] =
    b"type=PATH msg=audit(2.000:2): name=\"b\"\n\ntype=PATH msg=audit(1.000:1): name=\"a\"";

const BLANK_ORDERED: &[u8] =
    b"type=PATH msg=audit(1.000:1): name=\"a\"\ntype=PATH msg=audit(2.000:2): name=\"b\"\n\n";

// A log that was ordered twice has two marks.
const TWICE: &[u8] =
    b"type=PATH msg=audit(1.010:5): name=\"a\"\x1dWAS={ audit(0.900:5) }\x1dWAS={ audit(1.000:5) }\n";

const ONCE: &[u8] = b"type=PATH msg=audit(1.000:5): name=\"a\"\x1dWAS={ audit(0.900:5) }\n";

// A write and a call without a 64-bit one, of the 32-bit gate; and addresses of netlink sockets, that of the kernel and another one.
const FOREIGN: &[u8] =
    b"type=SYSCALL msg=audit(1.010:4): arch=40000003 syscall=4 per=8 a0=4 a1=0 a2=1 a3=0 ppid=1 pid=30\n\
type=EOE msg=audit(1.010:4): \n\
type=SYSCALL msg=audit(1.011:5): arch=40000003 syscall=102 per=8 a0=4 a1=0 a2=1 a3=0 ppid=1 pid=30\n\
type=EOE msg=audit(1.011:5): \n\
type=SOCKADDR msg=audit(1.012:6): saddr=100000000000000000000000\x1dSADDR={ fam=netlink }\n\
type=SOCKADDR msg=audit(1.013:7): saddr=10000000D204000000000000\n\
type=PATH msg=audit(1.014:8): saddr=100000000000000000000000\n";

const FOREIGN_REWRITTEN: &[u8] =
    b"type=SYSCALL msg=audit(1.010:4): arch=c000003e syscall=1 per=8 a0=4 a1=0 a2=1 a3=0 ppid=1 pid=30\
\x1dWAS={ audit(1.010:4) 25 : arch=40000003 syscall=4 }\n\
type=EOE msg=audit(1.010:4): \n\
type=SYSCALL msg=audit(1.011:5): arch=40000003 syscall=102 per=8 a0=4 a1=0 a2=1 a3=0 ppid=1 pid=30\n\
type=EOE msg=audit(1.011:5): \n\
type=SOCKADDR msg=audit(1.012:6): saddr=0100\x1dSADDR={ fam=netlink }\
\x1dWAS={ audit(1.012:6) 12 : saddr=100000000000000000000000 }\n\
type=SOCKADDR msg=audit(1.013:7): saddr=10000000D204000000000000\n\
type=PATH msg=audit(1.014:8): saddr=100000000000000000000000\n";

// The same without joins.
const FOREIGN_APART: &[u8] =
    b"type=SYSCALL msg=audit(1.010:4): arch=c000003e syscall=1 per=8 a0=4 a1=0 a2=1 a3=0 ppid=1 pid=30\
\x1dWAS={ audit(1.010:4) 25 : arch=40000003 syscall=4 }\n\
type=EOE msg=audit(1.010:4): \n\
type=SYSCALL msg=audit(1.011:5): arch=40000003 syscall=102 per=8 a0=4 a1=0 a2=1 a3=0 ppid=1 pid=30\n\
type=EOE msg=audit(1.011:5): \n\
type=SOCKADDR msg=audit(1.012:6): saddr=100000000000000000000000\x1dSADDR={ fam=netlink }\n\
type=SOCKADDR msg=audit(1.013:7): saddr=10000000D204000000000000\n\
type=PATH msg=audit(1.014:8): saddr=100000000000000000000000\n";

// A process opens /srv and removes a name relative to it. It binds a socket to port 8080 and accepts a peer of this machine.
const MET: &[u8] =
    b"type=SYSCALL msg=audit(1.000:1): arch=c000003e syscall=257 success=yes exit=3 a0=ffffffffffffff9c a1=0 a2=10000 a3=0 ppid=1 pid=10\n\
type=CWD msg=audit(1.000:1): cwd=\"/\"\n\
type=PATH msg=audit(1.000:1): item=0 name=\"srv\" inode=5 dev=08:01 mode=040755 nametype=NORMAL\n\
type=EOE msg=audit(1.000:1): \n\
type=SYSCALL msg=audit(1.000:2): arch=c000003e syscall=263 success=yes exit=0 a0=3 a1=0 a2=0 a3=0 ppid=1 pid=10\n\
type=CWD msg=audit(1.000:2): cwd=\"/home\"\n\
type=EOE msg=audit(1.000:2): \n\
type=SYSCALL msg=audit(1.001:3): arch=c000003e syscall=49 success=yes exit=0 a0=5 a1=0 a2=0 a3=0 ppid=1 pid=10\n\
type=SOCKADDR msg=audit(1.001:3): saddr=02001F90000000000000000000000000\n\
type=EOE msg=audit(1.001:3): \n\
type=SYSCALL msg=audit(1.002:4): arch=c000003e syscall=288 success=yes exit=6 a0=5 a1=0 a2=0 a3=80000 ppid=1 pid=10\n\
type=SOCKADDR msg=audit(1.002:4): saddr=0200D4317F0000010000000000000000\n\
type=EOE msg=audit(1.002:4): \n";

// The lines of it that are rewritten.
const MET_NAME: &[u8] =
    b"type=CWD msg=audit(1.000:2): cwd=\"/srv\"\x1dWAS={ audit(1.000:2) 12 : cwd=\"/home\" }\n";

const MET_PEER: &[u8] = b"type=SOCKADDR msg=audit(1.002:4): saddr=02001F907F0000010000000000000000\
\x1dWAS={ audit(1.002:4) 40 : saddr=0200D4317F0000010000000000000000 }\n";

// The accept has a connection of its own, which is named after it since no connect waits: 127.0.0.1:8080#1002:4.
const MET_APART: &[u8] =
    b"type=SOCKADDR msg=audit(1.002:4): saddr=01003132372E302E302E313A3830383023313030323A34\
\x1dWAS={ audit(1.002:4) 54 : saddr=0200D4317F0000010000000000000000 }\n";

// A process connects to a port, and another one accepts the connection.
const CALLED: &[u8] =
    b"type=SYSCALL msg=audit(1.001:3): arch=c000003e syscall=49 success=yes exit=0 a0=5 a1=0 a2=0 a3=0 ppid=1 pid=10\n\
type=SOCKADDR msg=audit(1.001:3): saddr=02001F90000000000000000000000000\n\
type=EOE msg=audit(1.001:3): \n\
type=SYSCALL msg=audit(1.002:4): arch=c000003e syscall=42 success=yes exit=0 a0=3 a1=0 a2=0 a3=0 ppid=1 pid=20\n\
type=SOCKADDR msg=audit(1.002:4): saddr=02001F907F0000010000000000000000\n\
type=EOE msg=audit(1.002:4): \n\
type=SYSCALL msg=audit(1.003:5): arch=c000003e syscall=288 success=yes exit=6 a0=5 a1=0 a2=0 a3=80000 ppid=1 pid=10\n\
type=SOCKADDR msg=audit(1.003:5): saddr=0200D4317F0000010000000000000000\n\
type=EOE msg=audit(1.003:5): \n";

// Both ends have the name of the connection, which is 127.0.0.1:8080#1002:4, or the address of the listening socket.
const CALLED_APART: &[u8] =
    b"type=SOCKADDR msg=audit(1.002:4): saddr=01003132372E302E302E313A3830383023313030323A34\
\x1dWAS={ audit(1.002:4) 54 : saddr=02001F907F0000010000000000000000 }\n\
type=SOCKADDR msg=audit(1.003:5): saddr=01003132372E302E302E313A3830383023313030323A34\
\x1dWAS={ audit(1.003:5) 54 : saddr=0200D4317F0000010000000000000000 }\n";

const CALLED_SHARED: &[u8] =
    b"type=SOCKADDR msg=audit(1.003:5): saddr=02001F907F0000010000000000000000\
\x1dWAS={ audit(1.003:5) 40 : saddr=0200D4317F0000010000000000000000 }\n";

// The same with accepts that don't ask for the peer's address: one takes the connection, one has a record of its peer all the same,
// and no connect waits for the last.
const SILENT: &[u8] =
    b"type=SYSCALL msg=audit(1.001:3): arch=c000003e syscall=49 success=yes exit=0 a0=5 a1=0 a2=0 a3=0 ppid=1 pid=10\n\
type=SOCKADDR msg=audit(1.001:3): saddr=02001F90000000000000000000000000\n\
type=EOE msg=audit(1.001:3): \n\
type=SYSCALL msg=audit(1.002:4): arch=c000003e syscall=42 success=yes exit=0 a0=3 a1=0 a2=0 a3=0 ppid=1 pid=20\n\
type=SOCKADDR msg=audit(1.002:4): saddr=02001F907F0000010000000000000000\n\
type=EOE msg=audit(1.002:4): \n\
type=SYSCALL msg=audit(1.003:5): arch=c000003e syscall=43 success=yes exit=6 a0=5 a1=0 a2=0 a3=0 ppid=1 pid=10\n\
type=PROCTITLE msg=audit(1.003:5): proctitle=\"p\"\n\
type=SYSCALL msg=audit(1.004:6): arch=c000003e syscall=42 success=yes exit=0 a0=3 a1=0 a2=0 a3=0 ppid=1 pid=20\n\
type=SOCKADDR msg=audit(1.004:6): saddr=02001F907F0000010000000000000000\n\
type=EOE msg=audit(1.004:6): \n\
type=SYSCALL msg=audit(1.005:7): arch=c000003e syscall=43 success=yes exit=7 a0=5 a1=0 a2=0 a3=0 ppid=1 pid=10\n\
type=SOCKADDR msg=audit(1.005:7): saddr=0200D4310A0000090000000000000000\n\
type=SYSCALL msg=audit(1.006:8): arch=c000003e syscall=288 success=yes exit=8 a0=5 a1=0 a2=0 a3=0 ppid=1 pid=10\n\
type=SYSCALL msg=audit(1.007:9): arch=c000003e syscall=288 success=yes exit=9 a0=5 a1=0 a2=0 a3=0 ppid=1 pid=10\n";

// The connection is 127.0.0.1:8080#1002:4, and the next one 127.0.0.1:8080#1004:6.
const SILENT_APART: &[u8] =
    b"type=SOCKADDR msg=audit(1.002:4): saddr=01003132372E302E302E313A3830383023313030323A34\
\x1dWAS={ audit(1.002:4) 54 : saddr=02001F907F0000010000000000000000 }\n\
type=SOCKADDR msg=audit(1.003:5): saddr=01003132372E302E302E313A3830383023313030323A34\x1dADDED=yes\
\x1dWAS={ audit(1.003:5) 54 : saddr=0100 }\n\
type=SOCKADDR msg=audit(1.004:6): saddr=01003132372E302E302E313A3830383023313030343A36\
\x1dWAS={ audit(1.004:6) 54 : saddr=02001F907F0000010000000000000000 }\n\
type=SOCKADDR msg=audit(1.006:8): saddr=01003132372E302E302E313A3830383023313030343A36\x1dADDED=yes\
\x1dWAS={ audit(1.006:8) 54 : saddr=0100 }\n";

// The record of a 32-bit fork stands after a later event, and no line may wait.
const LATE: &[u8] =
    b"type=PATH msg=audit(2.000:1): a\ntype=SYSCALL msg=audit(1.000:2): arch=40000003 syscall=120 a0=0\n";

const LATE_REWRITTEN: &[u8] = b"type=PATH msg=audit(2.000:1): a\n\
type=SYSCALL msg=audit(2.000:2): arch=c000003e syscall=56 a0=0\
\x1dWAS={ audit(1.000:2) 26 : arch=40000003 syscall=120 }\n\
type=EOE msg=audit(2.000:2): \x1dWAS={ audit(1.000:2) }\n";

const LATE_UNDONE: &[u8] =
    b"type=PATH msg=audit(2.000:1): a\ntype=SYSCALL msg=audit(1.000:2): arch=40000003 syscall=120 a0=0\n\
type=EOE msg=audit(1.000:2): \n";

// A 32-bit read waited for what another process wrote later.
const GATE: &[u8] =
    b"type=SYSCALL msg=audit(1.010:4): arch=c000003e syscall=1 a0=4 a1=0 a2=1 a3=0 ppid=1 pid=30\n\
type=EOE msg=audit(1.010:4): \n\
type=SYSCALL msg=audit(1.000:5): arch=40000003 syscall=3 per=8 a0=3 a1=0 a2=1 a3=0 ppid=1 pid=10\n\
type=EOE msg=audit(1.000:5): \n";

const GATE_WAITED: &[u8] =
    b"type=SYSCALL msg=audit(1.010:4): arch=c000003e syscall=1 a0=4 a1=0 a2=1 a3=0 ppid=1 pid=30\n\
type=EOE msg=audit(1.010:4): \n\
type=SYSCALL msg=audit(1.010:5): arch=c000003e syscall=0 per=8 a0=3 a1=0 a2=1 a3=0 ppid=1 pid=10\
\x1dWAS={ audit(1.000:5) 25 : arch=40000003 syscall=3 }\n\
type=EOE msg=audit(1.010:5): \x1dWAS={ audit(1.000:5) }\n";

// The same, if it isn't rewritten.
const GATE_AT_ENTRY: &[u8] =
    b"type=SYSCALL msg=audit(1.000:5): arch=40000003 syscall=3 per=8 a0=3 a1=0 a2=1 a3=0 ppid=1 pid=10\n\
type=EOE msg=audit(1.000:5): \n\
type=SYSCALL msg=audit(1.010:4): arch=c000003e syscall=1 a0=4 a1=0 a2=1 a3=0 ppid=1 pid=30\n\
type=EOE msg=audit(1.010:4): \n";

// A process opens a file and forks, and its child reads the file before another process writes.
const HELD: &[u8] =
    b"type=SYSCALL msg=audit(1.000:1): arch=c000003e syscall=257 success=yes exit=3 a0=5 a1=0 a2=0 a3=0 ppid=1 pid=10\n\
type=PATH msg=audit(1.000:1): item=0 name=\"/f\" inode=5 dev=08:01 mode=0100644 nametype=NORMAL\n\
type=EOE msg=audit(1.000:1): \n\
type=SYSCALL msg=audit(1.001:2): arch=c000003e syscall=57 success=yes exit=20 a0=0 a1=0 a2=0 a3=0 ppid=1 pid=10\n\
type=EOE msg=audit(1.001:2): \n\
type=SYSCALL msg=audit(1.010:3): arch=c000003e syscall=0 a0=3 a1=0 a2=1 a3=0 ppid=10 pid=20\n\
type=EOE msg=audit(1.010:3): \n\
type=SYSCALL msg=audit(1.020:4): arch=c000003e syscall=1 a0=4 a1=0 a2=1 a3=0 ppid=1 pid=30\n\
type=EOE msg=audit(1.020:4): \n";

// Its lines as they arrive: the read returns after the write.
const HELD_ARRIVES: &[u8] =
    b"type=SYSCALL msg=audit(1.000:1): arch=c000003e syscall=257 success=yes exit=3 a0=5 a1=0 a2=0 a3=0 ppid=1 pid=10\n\
type=PATH msg=audit(1.000:1): item=0 name=\"/f\" inode=5 dev=08:01 mode=0100644 nametype=NORMAL\n\
type=EOE msg=audit(1.000:1): \n\
type=SYSCALL msg=audit(1.001:2): arch=c000003e syscall=57 success=yes exit=20 a0=0 a1=0 a2=0 a3=0 ppid=1 pid=10\n\
type=EOE msg=audit(1.001:2): \n\
type=SYSCALL msg=audit(1.020:4): arch=c000003e syscall=1 a0=4 a1=0 a2=1 a3=0 ppid=1 pid=30\n\
type=EOE msg=audit(1.020:4): \n\
type=SYSCALL msg=audit(1.010:3): arch=c000003e syscall=0 a0=3 a1=0 a2=1 a3=0 ppid=10 pid=20\n\
type=EOE msg=audit(1.010:3): \n";

// Marks that no program wrote: one says that more bytes are replaced than there are, one has no count.
const FORGED: &[u8] =
    b"type=PATH msg=audit(2.000:2): b\x1dWAS={ audit(1.000:2) 99 : a }\ntype=PATH msg=audit(2.000:3): b\x1dWAS={ audit(1.000:3) x : a }\n";

const FORGED_UNDONE: &[u8] = b"type=PATH msg=audit(1.000:2): a\ntype=PATH msg=audit(1.000:3): b\n";

// The numbers of calls that fail: the first one or none.
fn calls(rt: &HostRuntime, first: bool) -> Result<List<u64>, Fail> {
    let mut list = List::new(rt.alloc());
    if first {
        list.push(0)?;
    }
    Ok(list)
}

// How the ordering of a log ends, what it writes, and what it counts.
fn order(
    rt: &HostRuntime,
    bounds: Bounds,
    switches: Switches,
    log: &[u8],
) -> Result<(Status, Bytes, Counts), Fail> {
    let mut log = MemSource::new(Bytes::from_slice(rt.alloc(), log)?, calls(rt, false)?);
    let mut out = MemSink::new(Bytes::new(rt.alloc()), calls(rt, false)?);
    let mut counts = Counts::new();
    let status = order_run(
        rt.alloc(),
        bounds,
        switches,
        &mut log,
        &mut out,
        &mut counts,
    );
    let written = Bytes::from_slice(rt.alloc(), out.written())?;
    Ok((status, written, counts))
}

// How the undoing of a log ends, and what it writes.
fn undo(rt: &HostRuntime, log: &[u8]) -> Result<(Status, Bytes), Fail> {
    let mut log = MemSource::new(Bytes::from_slice(rt.alloc(), log)?, calls(rt, false)?);
    let mut out = MemSink::new(Bytes::new(rt.alloc()), calls(rt, false)?);
    let status = undo_run(rt.alloc(), &mut log, &mut out);
    Ok((status, Bytes::from_slice(rt.alloc(), out.written())?))
}

#[test]
fn lines_are_written_in_the_order_of_effects(rt: HostRuntime) -> Result<(), Fail> {
    let rows = [
        (b"".as_slice(), b"".as_slice()),
        (WAITED, WAITED_ORDERED),
        (FORKED, FORKED_ORDERED),
        (BOOTS, BOOTS_ORDERED),
        (NODES, NODES_ORDERED),
        (TWINS, TWINS_ORDERED),
        (STARTED, STARTED_ORDERED),
        (BLANK, BLANK_ORDERED),
        (FOREIGN, FOREIGN_REWRITTEN),
        (GATE, GATE_WAITED),
        (HELD_ARRIVES, HELD),
    ];
    for (log, text) in rows {
        let (ended, written, _) = order(&rt, Bounds::of(20, 64), ON, log)?;
        assert_eq!(rt; ended, Status::Done);
        assert_eq!(rt; written.as_slice(), text);
    }
    Ok(())
}

#[test]
fn lines_that_wait_for_less_are_late(rt: HostRuntime) -> Result<(), Fail> {
    let (_, written, counts) = order(&rt, Bounds::of(20, 0), ON, WAITED)?;
    assert_eq!(rt; written.as_slice(), WAITED_AT_ONCE);
    let line = report(rt.alloc(), counts)?;
    let text =
        b"{\"added_ends\":4,\"added_peers\":0,\"events\":4,\"late\":1,\"rewrites\":0,\"times_raised\":6}\n";
    assert_eq!(rt; line.as_slice(), text.as_slice());
    Ok(())
}

#[test]
fn lines_are_rewritten_as_the_switches_allow(rt: HostRuntime) -> Result<(), Fail> {
    let rows = [
        (true, true, FOREIGN_REWRITTEN, 2),
        (false, true, FOREIGN_APART, 1),
        (false, false, FOREIGN, 0),
    ];
    for (join, compat, text, rewrites) in rows {
        let switches = Switches {
            join,
            apart: true,
            names: join,
            own: join,
            compat,
        };
        let (ended, written, counts) = order(&rt, Bounds::of(20, 64), switches, FOREIGN)?;
        assert_eq!(rt; ended, Status::Done);
        assert_eq!(rt; written.as_slice(), text);
        assert_eq!(rt; counts.rewrites, rewrites);
    }
    let (_, written, _) = order(&rt, Bounds::of(20, 0), ON, LATE)?;
    assert_eq!(rt; written.as_slice(), LATE_REWRITTEN);
    let switches = Switches {
        compat: false,
        ..ON
    };
    let (_, written, _) = order(&rt, Bounds::of(20, 64), switches, GATE)?;
    assert_eq!(rt; written.as_slice(), GATE_AT_ENTRY);
    Ok(())
}

// The lines of a text that have a mark.
fn marked(rt: &HostRuntime, text: &[u8]) -> Result<Bytes, Fail> {
    let mut out = Bytes::new(rt.alloc());
    for line in text.split(|byte| *byte == b'\n') {
        if line.contains(&0x1d) {
            out.append(line)?;
            out.append(b"\n")?;
        }
    }
    Ok(out)
}

#[test]
fn lines_are_rewritten_by_those_before(rt: HostRuntime) -> Result<(), Fail> {
    let rows = [
        (true, false, true, MET_NAME),
        (false, true, false, MET_PEER),
        (false, true, true, MET_APART),
        (false, false, true, b"".as_slice()),
    ];
    for (names, join, apart, text) in rows {
        let switches = Switches {
            join,
            apart,
            names,
            own: false,
            compat: false,
        };
        let (_, written, _) = order(&rt, Bounds::of(20, 64), switches, MET)?;
        let found = marked(&rt, written.as_slice())?;
        assert_eq!(rt; found.as_slice(), text);
        let (_, lines) = undo(&rt, written.as_slice())?;
        assert_eq!(rt; lines.as_slice(), MET);
    }
    Ok(())
}

#[test]
fn both_ends_of_a_connection_are_one_object(rt: HostRuntime) -> Result<(), Fail> {
    let rows = [
        (true, true, CALLED_APART, 2),
        (true, false, CALLED_SHARED, 1),
        (false, true, b"".as_slice(), 0),
    ];
    for (join, apart, text, rewrites) in rows {
        let switches = Switches { join, apart, ..ON };
        let (_, written, counts) = order(&rt, Bounds::of(20, 64), switches, CALLED)?;
        let found = marked(&rt, written.as_slice())?;
        assert_eq!(rt; found.as_slice(), text);
        assert_eq!(rt; counts.rewrites, rewrites);
        let (_, lines) = undo(&rt, written.as_slice())?;
        assert_eq!(rt; lines.as_slice(), CALLED);
    }
    Ok(())
}

#[test]
fn a_peer_that_was_accepted_silently_is_added(rt: HostRuntime) -> Result<(), Fail> {
    let rows = [
        (true, true, SILENT_APART, 2),
        (true, false, b"".as_slice(), 0),
        (false, true, b"".as_slice(), 0),
    ];
    for (join, apart, text, peers) in rows {
        let switches = Switches { join, apart, ..ON };
        let (_, written, counts) = order(&rt, Bounds::of(20, 64), switches, SILENT)?;
        let found = marked(&rt, written.as_slice())?;
        assert_eq!(rt; found.as_slice(), text);
        assert_eq!(rt; counts.added_peers, peers);
    }
    Ok(())
}

#[test]
fn lines_are_undone_in_their_order(rt: HostRuntime) -> Result<(), Fail> {
    let rows = [
        (b"".as_slice(), b"".as_slice()),
        (b"no stamp", b"no stamp\n"),
        (WAITED_ORDERED, WAITED_UNDONE),
        (BOOTS_ORDERED, BOOTS_ORDERED),
        (TWICE, ONCE),
        (FOREIGN_REWRITTEN, FOREIGN),
        (LATE_REWRITTEN, LATE_UNDONE),
        (FORGED, FORGED_UNDONE),
    ];
    for (log, text) in rows {
        let (ended, written) = undo(&rt, log)?;
        assert_eq!(rt; ended, Status::Done);
        assert_eq!(rt; written.as_slice(), text);
    }
    Ok(())
}

#[test]
fn a_fault_of_an_end_is_named(rt: HostRuntime) -> Result<(), Fail> {
    for (read, write, status) in [
        (true, false, Status::ReadFault),
        (false, true, Status::WriteFault),
    ] {
        let mut log = MemSource::new(Bytes::from_slice(rt.alloc(), b"x\n")?, calls(&rt, read)?);
        let mut out = MemSink::new(Bytes::new(rt.alloc()), calls(&rt, write)?);
        let mut counts = Counts::new();
        let ended = order_run(
            rt.alloc(),
            Bounds::of(20, 64),
            ON,
            &mut log,
            &mut out,
            &mut counts,
        );
        assert_eq!(rt; ended, status);
    }
    Ok(())
}
