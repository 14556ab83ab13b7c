//! The programs of examples/ that tests use, each as its file has it.

pub const HANDOFF: &str = "\
ringcheck 1
ring 4
file 3 64
buffer a 16 1
token 7 read a
thread t0 holds a:1 t:7 c:1 {
lock {
get_sqe
prep_read 3 a 16 0
set_data64 7
loop keeps q:1 {
r = submit
if sq_ready == 0 {
break
}
}
}
}
thread t1 holds {
loop keeps {
lock {
peek_cqe r {
case 7 {
cqe_seen
break
}
other {
}
none {
}
}
}
}
v = load a 0
print v
}
";

pub const NOP: &str = "\
ringcheck 1 # One thread submits a nop and reaps its completion.
ring 1
token 7 nop
thread t0 holds t:7 c:1 {
lock {
get_sqe
prep_nop
set_data64 7
r = submit
peek_cqe r {
case 7 {
cqe_seen
}
other {
}
none {
}
}
}
}
";

pub const SHARE: &str = "\
ringcheck 1
ring 2
file 3 64
buffer a 16 2
token 9 write a 1
thread t0 holds a:2 t:9 c:1 {
lock {
get_sqe
prep_write 3 a 16 0 1
set_data64 9
loop keeps a:1 q:1 {
r = submit
if sq_ready == 0 {
break
}
}
}
v = load a 3
}
";
