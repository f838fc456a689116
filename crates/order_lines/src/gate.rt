//! The calls of the 32-bit gate that have the arguments of a 64-bit call.
ghost use Rattle.std.specs.Prelude.{◌≡◌};
ghost use Rattle.order_lines.specs.Gate.{native_in, native_of};

// The number of a 32-bit call and that of the 64-bit call with the same arguments, as far as the main program reads them.
static CALLS: [(u32, u32); 73] = [
    (2, 57), // fork
    (3, 0), // read
    (4, 1), // write
    (5, 2), // open
    (6, 3), // close
    (8, 85), // creat
    (9, 86), // link
    (10, 87), // unlink
    (11, 59), // execve
    (14, 133), // mknod
    (15, 90), // chmod
    (16, 94), // lchown
    (38, 82), // rename
    (39, 83), // mkdir
    (40, 84), // rmdir
    (41, 32), // dup
    (42, 22), // pipe
    (55, 72), // fcntl
    (63, 33), // dup2
    (83, 88), // symlink
    (92, 76), // truncate
    (93, 77), // ftruncate
    (94, 91), // fchmod
    (95, 93), // fchown
    (120, 56), // clone
    (145, 19), // readv
    (146, 20), // writev
    (180, 17), // pread64
    (181, 18), // pwrite64
    (182, 92), // chown
    (187, 40), // sendfile
    (190, 58), // vfork
    (192, 9), // mmap2
    (193, 76), // truncate64
    (194, 77), // ftruncate64
    (198, 94), // lchown32
    (207, 93), // fchown32
    (212, 92), // chown32
    (221, 72), // fcntl64
    (239, 40), // sendfile64
    (252, 231), // exit_group
    (295, 257), // openat
    (296, 258), // mkdirat
    (297, 259), // mknodat
    (298, 260), // fchownat
    (301, 263), // unlinkat
    (302, 264), // renameat
    (303, 265), // linkat
    (304, 266), // symlinkat
    (306, 268), // fchmodat
    (313, 275), // splice
    (315, 276), // tee
    (330, 292), // dup3
    (331, 293), // pipe2
    (333, 295), // preadv
    (334, 296), // pwritev
    (353, 316), // renameat2
    (358, 322), // execveat
    (359, 41), // socket
    (360, 53), // socketpair
    (361, 49), // bind
    (362, 42), // connect
    (364, 288), // accept4
    (369, 44), // sendto
    (370, 46), // sendmsg
    (371, 45), // recvfrom
    (372, 47), // recvmsg
    (377, 326), // copy_file_range
    (378, 327), // preadv2
    (379, 328), // pwritev2
    (435, 435), // clone3
    (436, 436), // close_range
    (437, 437), // openat2
];

/// The number of the 64-bit call that a 32-bit call is read as.
pub fn native_of(number: u32) -> Option<u32>
    ensures { result ≡ native_of number }
{
    native_in(number, &CALLS)
}

// The 64-bit number in the first of these rows that has the 32-bit number.
fn native_in(number: u32, rows: &[(u32, u32)]) -> Option<u32>
    ensures { result ≡ native_in number rows.now }
{
    for row in rows {
        if row.0 == number {
            return Some(row.1);
        }
    }
    None
}
