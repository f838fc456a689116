//! What becomes of logs, line by line.
use super::*;
use flow_base::Bytes;
use order_text::read_stamp;
use std::test::Fail;

// A process opens /srv and, relative to that, my.d, which an exec closes. Later it removes names relative to them, and so does its
// child. Then copies, closes, names relative to two directories, what isn't a directory, another event's record, an end and a start.
const NAMES: &[u8] =
    b"type=SYSCALL msg=audit(1.000:1): arch=c000003e syscall=257 success=yes exit=3 a0=ffffffffffffff9c a1=0 a2=10000 a3=0 ppid=1 pid=10\n\
type=CWD msg=audit(1.000:1): cwd=\"/\"\n\
type=PATH msg=audit(1.000:1): item=0 name=\"srv\" inode=5 dev=08:01 mode=040755 nametype=NORMAL\n\
type=SYSCALL msg=audit(1.000:2): arch=c000003e syscall=257 success=yes exit=4 a0=3 a1=0 a2=90000 a3=0 ppid=1 pid=10\n\
type=CWD msg=audit(1.000:2): cwd=\"/home\"\n\
type=PATH msg=audit(1.000:2): item=0 name=\"my.d\" inode=5 dev=08:01 mode=040755 nametype=NORMAL\n\
type=SYSCALL msg=audit(1.000:3): arch=c000003e syscall=263 success=yes exit=0 a0=4 a1=0 a2=0 a3=0 ppid=1 pid=10\n\
type=CWD msg=audit(1.000:3): cwd=2F72\n\
type=SYSCALL msg=audit(1.000:4): arch=c000003e syscall=57 success=yes exit=20 a0=0 a1=0 a2=0 a3=0 ppid=1 pid=10\n\
type=SYSCALL msg=audit(1.000:5): arch=c000003e syscall=59 success=yes exit=0 a0=0 a1=0 a2=0 a3=0 ppid=1 pid=10\n\
type=SYSCALL msg=audit(1.000:6): arch=c000003e syscall=263 success=yes exit=0 a0=4 a1=0 a2=0 a3=0 ppid=1 pid=10\n\
type=CWD msg=audit(1.000:6): cwd=\"/home\"\n\
type=SYSCALL msg=audit(1.000:7): arch=c000003e syscall=263 success=yes exit=0 a0=4 a1=0 a2=0 a3=0 ppid=1 pid=20\n\
type=CWD msg=audit(1.000:7): cwd=\"/home\"\x1dCWD=\"x\"\n\
type=SYSCALL msg=audit(1.000:8): arch=c000003e syscall=32 success=yes exit=5 a0=3 a1=0 a2=0 a3=0 ppid=1 pid=10\n\
type=SYSCALL msg=audit(1.000:9): arch=c000003e syscall=3 success=yes exit=0 a0=3 a1=0 a2=0 a3=0 ppid=1 pid=10\n\
type=SYSCALL msg=audit(1.000:10): arch=c000003e syscall=263 success=yes exit=0 a0=3 a1=0 a2=0 a3=0 ppid=1 pid=10\n\
type=CWD msg=audit(1.000:10): cwd=\"/home\"\n\
type=SYSCALL msg=audit(1.000:11): arch=c000003e syscall=264 success=yes exit=0 a0=5 a1=0 a2=5 a3=0 ppid=1 pid=10\n\
type=CWD msg=audit(1.000:11): cwd=\"/home\"\n\
type=SYSCALL msg=audit(1.000:12): arch=c000003e syscall=264 success=yes exit=0 a0=5 a1=0 a2=ffffffffffffff9c a3=0 ppid=1 pid=10\n\
type=CWD msg=audit(1.000:12): cwd=\"/home\"\n\
type=SYSCALL msg=audit(1.000:13): arch=c000003e syscall=266 success=yes exit=0 a0=7ff0 a1=5 a2=0 a3=0 ppid=1 pid=10\n\
type=CWD msg=audit(1.000:13): cwd=\"/home\"\n\
type=SYSCALL msg=audit(1.000:22): arch=c000003e syscall=263 success=yes exit=0 a0=5 a1=0 a2=0 a3=0 ppid=1 pid=10\n\
type=CWD msg=audit(1.000:22): cwd=\"/srv\"\n\
type=SYSCALL msg=audit(1.000:14): arch=c000003e syscall=257 success=yes exit=6 a0=ffffffffffffff9c a1=0 a2=10000 a3=0 ppid=1 pid=10\n\
type=CWD msg=audit(1.000:14): cwd=\"/\"\n\
type=PATH msg=audit(1.000:14): item=0 name=\"fifo\" inode=5 dev=08:01 mode=010600 nametype=NORMAL\n\
type=SYSCALL msg=audit(1.000:15): arch=c000003e syscall=263 success=yes exit=0 a0=6 a1=0 a2=0 a3=0 ppid=1 pid=10\n\
type=CWD msg=audit(1.000:15): cwd=\"/home\"\n\
type=SYSCALL msg=audit(1.000:16): arch=c000003e syscall=257 success=yes exit=6 a0=5 a1=0 a2=10000 a3=0 ppid=1 pid=10\n\
type=CWD msg=audit(1.000:16): cwd=\"/home\"\n\
type=PATH msg=audit(1.000:16): item=0 name=2F6120 inode=5 dev=08:01 mode=040755 nametype=NORMAL\n\
type=SYSCALL msg=audit(1.000:17): arch=c000003e syscall=263 success=yes exit=0 a0=6 a1=0 a2=0 a3=0 ppid=1 pid=10\n\
type=CWD msg=audit(1.000:17): cwd=\"/home\"\n\
type=CWD msg=audit(1.000:18): cwd=\"/home\"\n\
type=SYSCALL msg=audit(1.000:19): arch=c000003e syscall=231 success=yes exit=0 a0=0 a1=0 a2=0 a3=0 ppid=1 pid=20\n\
type=SYSCALL msg=audit(1.000:20): arch=c000003e syscall=263 success=yes exit=0 a0=3 a1=0 a2=0 a3=0 ppid=1 pid=20\n\
type=CWD msg=audit(1.000:20): cwd=\"/home\"\n\
type=DAEMON_START msg=audit(2.000:1): op=start\n\
type=SYSCALL msg=audit(1.000:21): arch=c000003e syscall=263 success=yes exit=0 a0=6 a1=0 a2=0 a3=0 ppid=1 pid=10\n\
type=CWD msg=audit(1.000:21): cwd=\"/home\"\n";

// What stands after the stamps of the lines that are written otherwise.
const NAMED: &[u8] = b": cwd=\"/srv\"\n\
: cwd=\"/srv/my.d\"\n\
: cwd=\"/srv/my.d\"\x1dCWD=\"x\"\n\
: cwd=\"/srv\"\n\
: cwd=\"/srv\"\n\
: cwd=\"/srv\"\n\
: cwd=2F6120\n";

// Two processes listen, one of them at this machine's address 10.0.0.1, and accept peers of this machine and of others. A connect to a
// port that nobody has, a failed accept, an accept of what isn't bound and one after an exec that closed the socket are as they were.
const PEERS: &[u8] =
    b"type=SYSCALL msg=audit(1.000:1): arch=c000003e syscall=41 success=yes exit=3 a0=2 a1=80001 a2=0 a3=0 ppid=1 pid=10\n\
type=SYSCALL msg=audit(1.000:2): arch=c000003e syscall=49 success=yes exit=0 a0=3 a1=0 a2=0 a3=0 ppid=1 pid=10\n\
type=SOCKADDR msg=audit(1.000:2): saddr=02001F90000000000000000000000000\n\
type=SYSCALL msg=audit(1.000:3): arch=c000003e syscall=288 success=yes exit=4 a0=3 a1=0 a2=0 a3=80000 ppid=1 pid=10\n\
type=SOCKADDR msg=audit(1.000:3): saddr=0200D4317F0000010000000000000000\x1dSADDR={ x }\n\
type=SYSCALL msg=audit(1.000:4): arch=c000003e syscall=43 success=yes exit=5 a0=3 a1=0 a2=0 a3=0 ppid=1 pid=10\n\
type=SOCKADDR msg=audit(1.000:4): saddr=0200D4310A0000010000000000000000\n\
type=SYSCALL msg=audit(1.000:5): arch=c000003e syscall=41 success=yes exit=3 a0=a a1=1 a2=0 a3=0 ppid=1 pid=20\n\
type=SYSCALL msg=audit(1.000:6): arch=c000003e syscall=49 success=yes exit=0 a0=3 a1=0 a2=0 a3=0 ppid=1 pid=20\n\
type=SOCKADDR msg=audit(1.000:6): saddr=0A0000500000000000000000000000000000FFFF0A00000100000000\n\
type=SYSCALL msg=audit(1.000:7): arch=c000003e syscall=43 success=yes exit=5 a0=3 a1=0 a2=0 a3=0 ppid=1 pid=10\n\
type=SOCKADDR msg=audit(1.000:7): saddr=0200D4310A0000010000000000000000\n\
type=SYSCALL msg=audit(1.000:8): arch=c000003e syscall=43 success=yes exit=6 a0=3 a1=0 a2=0 a3=0 ppid=1 pid=20\n\
type=SOCKADDR msg=audit(1.000:8): saddr=0A00D4310000000000000000000000000000FFFF0A00000100000000\n\
type=SYSCALL msg=audit(1.000:9): arch=c000003e syscall=43 success=yes exit=7 a0=3 a1=0 a2=0 a3=0 ppid=1 pid=20\n\
type=SOCKADDR msg=audit(1.000:9): saddr=0A00D431000000000000000000000000000000000000000100000000\n\
type=SYSCALL msg=audit(1.000:10): arch=c000003e syscall=43 success=yes exit=8 a0=3 a1=0 a2=0 a3=0 ppid=1 pid=20\n\
type=SOCKADDR msg=audit(1.000:10): saddr=0A00D4310000000020010DB800000000000000000000000100000000\n\
type=SYSCALL msg=audit(1.000:11): arch=c000003e syscall=42 success=yes exit=0 a0=9 a1=0 a2=0 a3=0 ppid=1 pid=20\n\
type=SOCKADDR msg=audit(1.000:11): saddr=02001F917F0000010000000000000000\n\
type=SYSCALL msg=audit(1.000:12): arch=c000003e syscall=43 success=yes exit=9 a0=6 a1=0 a2=0 a3=0 ppid=1 pid=20\n\
type=SOCKADDR msg=audit(1.000:12): saddr=0200D4317F0000010000000000000000\n\
type=SYSCALL msg=audit(1.000:13): arch=c000003e syscall=43 success=no exit=-11 a0=3 a1=0 a2=0 a3=0 ppid=1 pid=10\n\
type=SOCKADDR msg=audit(1.000:13): saddr=0200D4317F0000010000000000000000\n\
type=SYSCALL msg=audit(1.000:14): arch=c000003e syscall=59 success=yes exit=0 a0=0 a1=0 a2=0 a3=0 ppid=1 pid=10\n\
type=SYSCALL msg=audit(1.000:15): arch=c000003e syscall=43 success=yes exit=9 a0=3 a1=0 a2=0 a3=0 ppid=1 pid=10\n\
type=SOCKADDR msg=audit(1.000:15): saddr=0200D4317F0000010000000000000000\n";

// Each accept of a peer of this machine has a name of its own, since no connect waits for it.
const ALONE: &[u8] = b": saddr=01003132372E302E302E313A3830383023313030303A33\x1dSADDR={ x }\n\
: saddr=010031302E302E302E313A3830383023313030303A37\n\
: saddr=010031302E302E302E313A383023313030303A38\n\
: saddr=01005B303030303A303030303A303030303A303030303A303030303A303030303A303030303A303030315D3A383023313030303A39\n";

// The peers of this machine have the port of the listening socket.
const JOINED: &[u8] = b": saddr=02001F907F0000010000000000000000\x1dSADDR={ x }\n\
: saddr=02001F900A0000010000000000000000\n\
: saddr=020000500A0000010000000000000000\n\
: saddr=0A000050000000000000000000000000000000000000000100000000\n";

// Connects to a port, two of which wait together, and their accepts, with one from elsewhere between; an accept without a connect;
// connects to another port, one that fails, and a socket of family 1 before and after it is bound.
const CALLS: &[u8] =
    b"type=SYSCALL msg=audit(1.000:1): arch=c000003e syscall=49 success=yes exit=0 a0=3 a1=0 a2=0 a3=0 ppid=1 pid=10\n\
type=SOCKADDR msg=audit(1.000:1): saddr=02001F90000000000000000000000000\n\
type=SYSCALL msg=audit(1.000:2): arch=c000003e syscall=42 success=yes exit=0 a0=5 a1=0 a2=0 a3=0 ppid=1 pid=20\n\
type=SOCKADDR msg=audit(1.000:2): saddr=02001F907F0000010000000000000000\n\
type=SYSCALL msg=audit(1.000:3): arch=c000003e syscall=42 success=no exit=-115 a0=5 a1=0 a2=0 a3=0 ppid=1 pid=21\n\
type=SOCKADDR msg=audit(1.000:3): saddr=02001F907F0000010000000000000000\n\
type=SYSCALL msg=audit(1.000:4): arch=c000003e syscall=43 success=yes exit=6 a0=3 a1=0 a2=0 a3=0 ppid=1 pid=10\n\
type=SOCKADDR msg=audit(1.000:4): saddr=0200D4310A0000090000000000000000\n\
type=SYSCALL msg=audit(1.000:5): arch=c000003e syscall=43 success=yes exit=6 a0=3 a1=0 a2=0 a3=0 ppid=1 pid=10\n\
type=SOCKADDR msg=audit(1.000:5): saddr=0200D4317F0000010000000000000000\n\
type=SYSCALL msg=audit(1.000:6): arch=c000003e syscall=43 success=yes exit=7 a0=3 a1=0 a2=0 a3=0 ppid=1 pid=10\n\
type=SOCKADDR msg=audit(1.000:6): saddr=0200D4317F0000010000000000000000\n\
type=SYSCALL msg=audit(1.000:7): arch=c000003e syscall=42 success=yes exit=0 a0=6 a1=0 a2=0 a3=0 ppid=1 pid=20\n\
type=SOCKADDR msg=audit(1.000:7): saddr=02001F907F0000010000000000000000\n\
type=SYSCALL msg=audit(1.000:8): arch=c000003e syscall=43 success=yes exit=8 a0=3 a1=0 a2=0 a3=0 ppid=1 pid=10\n\
type=SOCKADDR msg=audit(1.000:8): saddr=0200D4317F0000010000000000000000\n\
type=SYSCALL msg=audit(1.000:9): arch=c000003e syscall=43 success=yes exit=8 a0=3 a1=0 a2=0 a3=0 ppid=1 pid=10\n\
type=SOCKADDR msg=audit(1.000:9): saddr=0200D4317F0000010000000000000000\n\
type=SYSCALL msg=audit(1.000:10): arch=c000003e syscall=42 success=yes exit=0 a0=7 a1=0 a2=0 a3=0 ppid=1 pid=20\n\
type=SOCKADDR msg=audit(1.000:10): saddr=02001F917F0000010000000000000000\n\
type=SYSCALL msg=audit(1.000:11): arch=c000003e syscall=42 success=no exit=-111 a0=7 a1=0 a2=0 a3=0 ppid=1 pid=20\n\
type=SOCKADDR msg=audit(1.000:11): saddr=02001F907F0000010000000000000000\n\
type=SYSCALL msg=audit(1.000:12): arch=c000003e syscall=42 success=yes exit=0 a0=7 a1=0 a2=0 a3=0 ppid=1 pid=20\n\
type=SOCKADDR msg=audit(1.000:12): saddr=01002F72756E2F73\n\
type=SYSCALL msg=audit(1.000:13): arch=c000003e syscall=49 success=yes exit=0 a0=3 a1=0 a2=0 a3=0 ppid=1 pid=11\n\
type=SOCKADDR msg=audit(1.000:13): saddr=01002F72756E2F730000\n\
type=SYSCALL msg=audit(1.000:14): arch=c000003e syscall=42 success=yes exit=0 a0=7 a1=0 a2=0 a3=0 ppid=1 pid=20\n\
type=SOCKADDR msg=audit(1.000:14): saddr=01002F72756E2F7300\n\
type=SYSCALL msg=audit(1.000:15): arch=c000003e syscall=288 success=yes exit=4 a0=3 a1=0 a2=0 a3=0 ppid=1 pid=11\n\
type=SOCKADDR msg=audit(1.000:15): saddr=0100\n\
type=SYSCALL msg=audit(1.000:16): arch=c000003e syscall=288 success=yes exit=4 a0=3 a1=0 a2=0 a3=0 ppid=1 pid=11\n\
type=SOCKADDR msg=audit(1.000:16): saddr=0100\n";

// Each connection has the address and the event of its connect, or of the first of those that wait together, or of its accept if no
// connect waits for that.
const APART: &[u8] = b": saddr=01003132372E302E302E313A3830383023313030303A32\n\
: saddr=01003132372E302E302E313A3830383023313030303A32\n\
: saddr=01003132372E302E302E313A3830383023313030303A32\n\
: saddr=01003132372E302E302E313A3830383023313030303A32\n\
: saddr=01003132372E302E302E313A3830383023313030303A37\n\
: saddr=01003132372E302E302E313A3830383023313030303A37\n\
: saddr=01003132372E302E302E313A3830383023313030303A39\n\
: saddr=01002F72756E2F7323313030303A3134\n\
: saddr=01002F72756E2F7323313030303A3134\n\
: saddr=01002F72756E2F7323313030303A3136\n";

// The peers have the port of the listening socket.
const SHARED: &[u8] = b": saddr=02001F907F0000010000000000000000\n\
: saddr=02001F907F0000010000000000000000\n\
: saddr=02001F907F0000010000000000000000\n\
: saddr=02001F907F0000010000000000000000\n";

// Accepts before their connects, which take the earliest first: two at once, one that waits too long, one with a time from before, one
// after which a line of another kind says that time has passed, two of family 1, and one before a start.
const EARLY: &[u8] =
    b"type=SYSCALL msg=audit(1.000:1): arch=c000003e syscall=49 success=yes exit=0 a0=3 a1=0 a2=0 a3=0 ppid=1 pid=10\n\
type=SOCKADDR msg=audit(1.000:1): saddr=02001F90000000000000000000000000\n\
type=SYSCALL msg=audit(1.000:2): arch=c000003e syscall=43 success=yes exit=6 a0=3 a1=0 a2=0 a3=0 ppid=1 pid=10\n\
type=SOCKADDR msg=audit(1.000:2): saddr=0200D4317F0000010000000000000000\n\
type=SYSCALL msg=audit(1.002:3): arch=c000003e syscall=43 success=yes exit=6 a0=3 a1=0 a2=0 a3=0 ppid=1 pid=10\n\
type=SOCKADDR msg=audit(1.002:3): saddr=0200D4317F0000010000000000000000\n\
type=SYSCALL msg=audit(1.003:4): arch=c000003e syscall=42 success=yes exit=0 a0=5 a1=0 a2=0 a3=0 ppid=1 pid=20\n\
type=SOCKADDR msg=audit(1.003:4): saddr=02001F907F0000010000000000000000\n\
type=SYSCALL msg=audit(1.006:5): arch=c000003e syscall=42 success=yes exit=0 a0=5 a1=0 a2=0 a3=0 ppid=1 pid=20\n\
type=SOCKADDR msg=audit(1.006:5): saddr=02001F907F0000010000000000000000\n\
type=SYSCALL msg=audit(1.010:6): arch=c000003e syscall=43 success=yes exit=6 a0=3 a1=0 a2=0 a3=0 ppid=1 pid=10\n\
type=SOCKADDR msg=audit(1.010:6): saddr=0200D4317F0000010000000000000000\n\
type=SYSCALL msg=audit(1.015:7): arch=c000003e syscall=42 success=yes exit=0 a0=5 a1=0 a2=0 a3=0 ppid=1 pid=20\n\
type=SOCKADDR msg=audit(1.015:7): saddr=02001F907F0000010000000000000000\n\
type=SYSCALL msg=audit(1.015:8): arch=c000003e syscall=43 success=yes exit=6 a0=3 a1=0 a2=0 a3=0 ppid=1 pid=10\n\
type=SOCKADDR msg=audit(1.015:8): saddr=0200D4317F0000010000000000000000\n\
type=SYSCALL msg=audit(1.015:9): arch=c000003e syscall=43 success=yes exit=6 a0=3 a1=0 a2=0 a3=0 ppid=1 pid=10\n\
type=SOCKADDR msg=audit(1.015:9): saddr=0200D4310A0000090000000000000000\n\
type=SYSCALL msg=audit(0.900:10): arch=c000003e syscall=43 success=yes exit=6 a0=3 a1=0 a2=0 a3=0 ppid=1 pid=10\n\
type=SOCKADDR msg=audit(0.900:10): saddr=0200D4317F0000010000000000000000\n\
type=SYSCALL msg=audit(1.019:11): arch=c000003e syscall=42 success=yes exit=0 a0=5 a1=0 a2=0 a3=0 ppid=1 pid=20\n\
type=SOCKADDR msg=audit(1.019:11): saddr=02001F907F0000010000000000000000\n\
type=SYSCALL msg=audit(1.020:12): arch=c000003e syscall=43 success=yes exit=6 a0=3 a1=0 a2=0 a3=0 ppid=1 pid=10\n\
type=SOCKADDR msg=audit(1.020:12): saddr=0200D4317F0000010000000000000000\n\
type=USER_LOGIN msg=audit(1.025:13): pid=1\n\
type=SYSCALL msg=audit(1.021:14): arch=c000003e syscall=42 success=yes exit=0 a0=5 a1=0 a2=0 a3=0 ppid=1 pid=20\n\
type=SOCKADDR msg=audit(1.021:14): saddr=02001F907F0000010000000000000000\n\
type=SYSCALL msg=audit(1.025:15): arch=c000003e syscall=43 success=yes exit=6 a0=3 a1=0 a2=0 a3=0 ppid=1 pid=10\n\
type=SOCKADDR msg=audit(1.025:15): saddr=0200D4317F0000010000000000000000\n\
type=SYSCALL msg=audit(1.025:16): arch=c000003e syscall=49 success=yes exit=0 a0=3 a1=0 a2=0 a3=0 ppid=1 pid=11\n\
type=SOCKADDR msg=audit(1.025:16): saddr=01002F72756E2F73\n\
type=SYSCALL msg=audit(1.025:17): arch=c000003e syscall=43 success=yes exit=6 a0=3 a1=0 a2=0 a3=0 ppid=1 pid=11\n\
type=SOCKADDR msg=audit(1.025:17): saddr=0100\n\
type=SYSCALL msg=audit(1.025:18): arch=c000003e syscall=43 success=yes exit=6 a0=3 a1=0 a2=0 a3=0 ppid=1 pid=11\n\
type=SOCKADDR msg=audit(1.025:18): saddr=0100\n\
type=SYSCALL msg=audit(1.026:19): arch=c000003e syscall=42 success=yes exit=0 a0=5 a1=0 a2=0 a3=0 ppid=1 pid=20\n\
type=SOCKADDR msg=audit(1.026:19): saddr=01002F72756E2F73\n\
type=SYSCALL msg=audit(1.026:20): arch=c000003e syscall=42 success=yes exit=0 a0=5 a1=0 a2=0 a3=0 ppid=1 pid=20\n\
type=SOCKADDR msg=audit(1.026:20): saddr=01002F72756E2F7300\n\
type=SYSCALL msg=audit(1.026:21): arch=c000003e syscall=43 success=yes exit=6 a0=3 a1=0 a2=0 a3=0 ppid=1 pid=10\n\
type=SOCKADDR msg=audit(1.026:21): saddr=0200D4317F0000010000000000000000\n\
type=DAEMON_START msg=audit(1.026:22): op=start\n\
type=SYSCALL msg=audit(1.026:23): arch=c000003e syscall=49 success=yes exit=0 a0=3 a1=0 a2=0 a3=0 ppid=1 pid=10\n\
type=SOCKADDR msg=audit(1.026:23): saddr=02001F90000000000000000000000000\n\
type=SYSCALL msg=audit(1.026:24): arch=c000003e syscall=42 success=yes exit=0 a0=5 a1=0 a2=0 a3=0 ppid=1 pid=20\n\
type=SOCKADDR msg=audit(1.026:24): saddr=02001F907F0000010000000000000000\n";

// Each connection has the event of its accept, and a connect that comes too late has one of its own.
const MET: &[u8] = b": saddr=01003132372E302E302E313A3830383023313030303A32\n\
: saddr=01003132372E302E302E313A3830383023313030323A33\n\
: saddr=01003132372E302E302E313A3830383023313030303A32\n\
: saddr=01003132372E302E302E313A3830383023313030323A33\n\
: saddr=01003132372E302E302E313A3830383023313031303A36\n\
: saddr=01003132372E302E302E313A3830383023313031353A37\n\
: saddr=01003132372E302E302E313A3830383023313031353A37\n\
: saddr=01003132372E302E302E313A38303830233930303A3130\n\
: saddr=01003132372E302E302E313A38303830233930303A3130\n\
: saddr=01003132372E302E302E313A3830383023313032303A3132\n\
: saddr=01003132372E302E302E313A3830383023313032313A3134\n\
: saddr=01003132372E302E302E313A3830383023313032313A3134\n\
: saddr=01002F72756E2F7323313032353A3137\n\
: saddr=01002F72756E2F7323313032353A3138\n\
: saddr=01002F72756E2F7323313032353A3137\n\
: saddr=01002F72756E2F7323313032353A3138\n\
: saddr=01003132372E302E302E313A3830383023313032363A3231\n\
: saddr=01003132372E302E302E313A3830383023313032363A3234\n";

// A server bound to port 53 and a client that isn't bound, both ways, with a peer from elsewhere and a call that fails. A client that is
// bound, also to a port that nobody has, a copy of the server's descriptor, a stream, a host of 16 bytes, a peer of family 1, and a socket
// that isn't bound, which connects to the server too: that is no connection.
const DATAGRAMS: &[u8] =
    b"type=SYSCALL msg=audit(1.000:1): arch=c000003e syscall=41 success=yes exit=3 a0=2 a1=80002 a2=0 a3=0 ppid=1 pid=10\n\
type=SYSCALL msg=audit(1.000:2): arch=c000003e syscall=49 success=yes exit=0 a0=3 a1=0 a2=0 a3=0 ppid=1 pid=10\n\
type=SOCKADDR msg=audit(1.000:2): saddr=02000035000000000000000000000000\n\
type=SYSCALL msg=audit(1.000:3): arch=c000003e syscall=44 success=yes exit=1 a0=4 a1=0 a2=0 a3=0 ppid=1 pid=20\n\
type=SOCKADDR msg=audit(1.000:3): saddr=020000357F0000010000000000000000\n\
type=SYSCALL msg=audit(1.000:4): arch=c000003e syscall=45 success=yes exit=1 a0=3 a1=0 a2=0 a3=0 ppid=1 pid=10\n\
type=SOCKADDR msg=audit(1.000:4): saddr=02009C407F0000010000000000000000\n\
type=SYSCALL msg=audit(1.000:5): arch=c000003e syscall=44 success=yes exit=1 a0=3 a1=0 a2=0 a3=0 ppid=1 pid=10\n\
type=SOCKADDR msg=audit(1.000:5): saddr=02009C407F0000010000000000000000\n\
type=SYSCALL msg=audit(1.000:6): arch=c000003e syscall=45 success=yes exit=1 a0=4 a1=0 a2=0 a3=0 ppid=1 pid=20\n\
type=SOCKADDR msg=audit(1.000:6): saddr=020000357F0000010000000000000000\n\
type=SYSCALL msg=audit(1.000:7): arch=c000003e syscall=47 success=yes exit=1 a0=3 a1=0 a2=0 a3=0 ppid=1 pid=10\n\
type=SOCKADDR msg=audit(1.000:7): saddr=02009C400A0000090000000000000000\n\
type=SYSCALL msg=audit(1.000:8): arch=c000003e syscall=46 success=yes exit=1 a0=3 a1=0 a2=0 a3=0 ppid=1 pid=10\n\
type=SOCKADDR msg=audit(1.000:8): saddr=02009C400A0000090000000000000000\n\
type=SYSCALL msg=audit(1.000:9): arch=c000003e syscall=47 success=no exit=-11 a0=3 a1=0 a2=0 a3=0 ppid=1 pid=10\n\
type=SOCKADDR msg=audit(1.000:9): saddr=02009C407F0000010000000000000000\n\
type=SYSCALL msg=audit(1.000:10): arch=c000003e syscall=49 success=yes exit=0 a0=5 a1=0 a2=0 a3=0 ppid=1 pid=30\n\
type=SOCKADDR msg=audit(1.000:10): saddr=02001770000000000000000000000000\n\
type=SYSCALL msg=audit(1.000:11): arch=c000003e syscall=44 success=yes exit=1 a0=5 a1=0 a2=0 a3=0 ppid=1 pid=30\n\
type=SOCKADDR msg=audit(1.000:11): saddr=020000357F0000010000000000000000\n\
type=SYSCALL msg=audit(1.000:12): arch=c000003e syscall=47 success=yes exit=1 a0=3 a1=0 a2=0 a3=0 ppid=1 pid=10\n\
type=SOCKADDR msg=audit(1.000:12): saddr=020017707F0000010000000000000000\n\
type=SYSCALL msg=audit(1.000:13): arch=c000003e syscall=46 success=yes exit=1 a0=3 a1=0 a2=0 a3=0 ppid=1 pid=10\n\
type=SOCKADDR msg=audit(1.000:13): saddr=020017707F0000010000000000000000\n\
type=SYSCALL msg=audit(1.000:14): arch=c000003e syscall=45 success=yes exit=1 a0=5 a1=0 a2=0 a3=0 ppid=1 pid=30\n\
type=SOCKADDR msg=audit(1.000:14): saddr=020000357F0000010000000000000000\n\
type=SYSCALL msg=audit(1.000:15): arch=c000003e syscall=46 success=yes exit=1 a0=5 a1=0 a2=0 a3=0 ppid=1 pid=30\n\
type=SOCKADDR msg=audit(1.000:15): saddr=020023287F0000010000000000000000\n\
type=SYSCALL msg=audit(1.000:16): arch=c000003e syscall=32 success=yes exit=7 a0=3 a1=0 a2=0 a3=0 ppid=1 pid=10\n\
type=SYSCALL msg=audit(1.000:17): arch=c000003e syscall=47 success=yes exit=1 a0=7 a1=0 a2=0 a3=0 ppid=1 pid=10\n\
type=SOCKADDR msg=audit(1.000:17): saddr=02009C407F0000010000000000000000\n\
type=SYSCALL msg=audit(1.000:18): arch=c000003e syscall=41 success=yes exit=6 a0=2 a1=1 a2=0 a3=0 ppid=1 pid=40\n\
type=SYSCALL msg=audit(1.000:19): arch=c000003e syscall=49 success=yes exit=0 a0=6 a1=0 a2=0 a3=0 ppid=1 pid=40\n\
type=SOCKADDR msg=audit(1.000:19): saddr=02001B58000000000000000000000000\n\
type=SYSCALL msg=audit(1.000:20): arch=c000003e syscall=44 success=yes exit=1 a0=6 a1=0 a2=0 a3=0 ppid=1 pid=40\n\
type=SOCKADDR msg=audit(1.000:20): saddr=020023287F0000010000000000000000\n\
type=SYSCALL msg=audit(1.000:21): arch=c000003e syscall=45 success=yes exit=1 a0=6 a1=0 a2=0 a3=0 ppid=1 pid=40\n\
type=SOCKADDR msg=audit(1.000:21): saddr=02009C407F0000010000000000000000\n\
type=SYSCALL msg=audit(1.000:22): arch=c000003e syscall=49 success=yes exit=0 a0=3 a1=0 a2=0 a3=0 ppid=1 pid=50\n\
type=SOCKADDR msg=audit(1.000:22): saddr=0A0014B4000000000000000000000000000000000000000000000000\n\
type=SYSCALL msg=audit(1.000:23): arch=c000003e syscall=45 success=yes exit=1 a0=3 a1=0 a2=0 a3=0 ppid=1 pid=50\n\
type=SOCKADDR msg=audit(1.000:23): saddr=0A009C40000000000000000000000000000000000000000100000000\n\
type=SYSCALL msg=audit(1.000:24): arch=c000003e syscall=45 success=yes exit=1 a0=3 a1=0 a2=0 a3=0 ppid=1 pid=50\n\
type=SOCKADDR msg=audit(1.000:24): saddr=01002F72756E2F73\n\
type=SYSCALL msg=audit(1.000:25): arch=c000003e syscall=41 success=yes exit=3 a0=2 a1=2 a2=0 a3=0 ppid=1 pid=50\n\
type=SYSCALL msg=audit(1.000:26): arch=c000003e syscall=45 success=yes exit=1 a0=3 a1=0 a2=0 a3=0 ppid=1 pid=50\n\
type=SOCKADDR msg=audit(1.000:26): saddr=02009C407F0000010000000000000000\n\
type=SYSCALL msg=audit(1.000:27): arch=c000003e syscall=42 success=yes exit=0 a0=3 a1=0 a2=0 a3=0 ppid=1 pid=50\n\
type=SOCKADDR msg=audit(1.000:27): saddr=020000357F0000010000000000000000\n";

// What was received has the port of its socket, and so has what was sent to a port that nobody has.
const OWN: &[u8] = b": saddr=020000357F0000010000000000000000\n\
: saddr=020000357F0000010000000000000000\n\
: saddr=020000357F0000010000000000000000\n\
: saddr=020017707F0000010000000000000000\n\
: saddr=020017707F0000010000000000000000\n\
: saddr=020000357F0000010000000000000000\n\
: saddr=0A0014B4000000000000000000000000000000000000000100000000\n";

// A process opens its descriptors 63, by two names, 0 and 200, each by a record that stands before the call's own, and one that an exec closes.
// Names of another process's descriptor, of one above 255 and of another thing, a call that failed, one that is no open, and a record of
// another event say nothing.
const COPIES: &[u8] =
    b"type=PATH msg=audit(1.000:1): item=0 name=\"/dev/fd/63\" inode=5 dev=00:0d mode=010600 nametype=NORMAL\n\
type=SYSCALL msg=audit(1.000:1): arch=c000003e syscall=257 success=yes exit=3 a0=ffffff9c a1=7ffc a2=0 a3=0 items=1 ppid=1 pid=10\n\
type=PATH msg=audit(1.000:2): item=0 name=\"/proc/10/fd/63\" inode=5 dev=00:0d mode=010600 nametype=NORMAL\n\
type=SYSCALL msg=audit(1.000:2): arch=c000003e syscall=2 success=yes exit=4 a0=7ffc a1=80000 a2=0 a3=0 items=1 ppid=1 pid=10\n\
type=PATH msg=audit(1.000:3): item=0 name=\"/dev/stdin\" inode=5 dev=00:0d mode=010600 nametype=NORMAL\n\
type=SYSCALL msg=audit(1.000:3): arch=c000003e syscall=257 success=yes exit=5 a0=ffffff9c a1=7ffc a2=0 a3=0 items=1 ppid=1 pid=10\n\
type=PATH msg=audit(1.000:4): item=0 name=\"/proc/thread-self/fd/200\" inode=5 dev=00:0d mode=010600 nametype=NORMAL\n\
type=SYSCALL msg=audit(1.000:4): arch=c000003e syscall=85 success=yes exit=6 a0=7ffc a1=1a4 a2=0 a3=0 items=1 ppid=1 pid=10\n\
type=PATH msg=audit(1.000:5): item=0 name=\"/proc/11/fd/63\" inode=5 dev=00:0d mode=010600 nametype=NORMAL\n\
type=SYSCALL msg=audit(1.000:5): arch=c000003e syscall=257 success=yes exit=7 a0=ffffff9c a1=7ffc a2=0 a3=0 items=1 ppid=1 pid=10\n\
type=PATH msg=audit(1.000:6): item=0 name=\"/dev/fd/256\" inode=5 dev=00:0d mode=010600 nametype=NORMAL\n\
type=SYSCALL msg=audit(1.000:6): arch=c000003e syscall=257 success=yes exit=7 a0=ffffff9c a1=7ffc a2=0 a3=0 items=1 ppid=1 pid=10\n\
type=PATH msg=audit(1.000:7): item=0 name=\"/dev/fd/63x\" inode=5 dev=00:0d mode=010600 nametype=NORMAL\n\
type=SYSCALL msg=audit(1.000:7): arch=c000003e syscall=257 success=yes exit=7 a0=ffffff9c a1=7ffc a2=0 a3=0 items=1 ppid=1 pid=10\n\
type=PATH msg=audit(1.000:8): item=0 name=\"/dev/fd/63\" inode=5 dev=00:0d mode=010600 nametype=NORMAL\n\
type=SYSCALL msg=audit(1.000:8): arch=c000003e syscall=257 success=no exit=-13 a0=ffffff9c a1=7ffc a2=0 a3=0 items=1 ppid=1 pid=10\n\
type=PATH msg=audit(1.000:9): item=0 name=\"/dev/fd/63\" inode=5 dev=00:0d mode=010600 nametype=NORMAL\n\
type=SYSCALL msg=audit(1.000:9): arch=c000003e syscall=90 success=yes exit=0 a0=7ffc a1=1a4 a2=0 a3=0 items=1 ppid=1 pid=10\n\
type=PATH msg=audit(1.000:10): item=0 name=\"/dev/fd/63\" inode=5 dev=00:0d mode=010600 nametype=NORMAL\n\
type=SYSCALL msg=audit(1.000:11): arch=c000003e syscall=257 success=yes exit=7 a0=ffffff9c a1=7ffc a2=0 a3=0 items=1 ppid=1 pid=10\n";

// What stands after the stamps of those that are copies.
const COPIED: &[u8] =
    b": arch=c000003e syscall=72 success=yes exit=3 a0=3f a1=0 a2=0 a3=0 items=1 ppid=1 pid=10\n\
: arch=c000003e syscall=72 success=yes exit=4 a0=3f a1=406 a2=0 a3=0 items=1 ppid=1 pid=10\n\
: arch=c000003e syscall=72 success=yes exit=5 a0=00 a1=0 a2=0 a3=0 items=1 ppid=1 pid=10\n\
: arch=c000003e syscall=72 success=yes exit=6 a0=c8 a1=0 a2=0 a3=0 items=1 ppid=1 pid=10\n";

const ALL: Settings = Settings {
    names: true,
    own: true,
    join: true,
    apart: true,
};

// What stands after the stamps of the lines of a log that are written otherwise.
fn rewritten(rt: &HostRuntime, settings: Settings, log: &[u8]) -> Result<Bytes, Fail> {
    let mut rules = Rules::new(rt.alloc(), settings);
    let mut out = Bytes::new(rt.alloc());
    for line in log.split(|byte| *byte == b'\n') {
        if let Some(made) = rules.see(line)? {
            out.append(made.text.as_slice())?;
            if let Some(stamp) = read_stamp(line) {
                if made.len <= stamp.rest.len() {
                    out.append(&stamp.rest[made.len..])?;
                }
            }
            out.append(b"\n")?;
        }
    }
    Ok(out)
}

#[test]
fn lines_are_written_otherwise(rt: HostRuntime) -> Result<(), Fail> {
    for (log, text) in [
        (NAMES, NAMED),
        (PEERS, ALONE),
        (CALLS, APART),
        (EARLY, MET),
        (DATAGRAMS, OWN),
        (COPIES, COPIED),
    ] {
        let made = rewritten(&rt, ALL, log)?;
        assert_eq!(rt; made.as_slice(), text);
    }
    Ok(())
}

#[test]
fn connections_of_a_port_are_shared_if_they_are_not_apart(rt: HostRuntime) -> Result<(), Fail> {
    let settings = Settings {
        apart: false,
        ..ALL
    };
    for (log, text) in [(PEERS, JOINED), (CALLS, SHARED), (DATAGRAMS, OWN)] {
        let made = rewritten(&rt, settings, log)?;
        assert_eq!(rt; made.as_slice(), text);
    }
    Ok(())
}

#[test]
fn nothing_is_written_otherwise_without_its_switch(rt: HostRuntime) -> Result<(), Fail> {
    let settings = Settings {
        names: false,
        own: false,
        join: false,
        apart: true,
    };
    for log in [NAMES, PEERS, CALLS, EARLY, DATAGRAMS, COPIES] {
        let made = rewritten(&rt, settings, log)?;
        assert!(rt; made.as_slice().is_empty());
    }
    Ok(())
}
