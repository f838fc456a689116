//! Which child a fork has begun, if its answer is the child's number in a pid namespace.
//!
//!     type=SYSCALL msg=audit(1.000:1): .. syscall=57 success=yes exit=7 .. ppid=1 pid=31000     a fork
//!     type=SYSCALL msg=audit(1.004:2): .. syscall=59 .. ppid=31000 pid=31337                    its child
//!
//! No record says that 7 is 31337. But a call is read long before it is written. So when the fork is written, the lines read so far
//! say which children its process has. A child is told if no other fork of the process can have begun it.
#![tactic(auto)]

mod brood;
mod families;
mod family;
mod heard;

pub use families::Families;
