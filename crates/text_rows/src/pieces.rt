//! Words, texts and programs, and what is told of them. Rows end with `@`, their parts with `|`.

/// The lines of a text that stands for a work.
pub const BASE: [&str; 12] = [
    "snapper 1",
    "coordinators 1",
    "logs 1",
    "batch 16",
    "batches 8",
    "acts 8",
    "program",
    "method put(n) { f0 = f0 + n; return f0; }",
    "end",
    "actors 20",
    "actor 0 100",
    "pact 0 put 5 uses 0:1",
];

/// A word, the natural number that it spells, and the signed one.
pub const NUMBERS: &str = "\
    0|Some(0) Some(0)@\
    7|Some(7) Some(7)@\
    10|Some(10) Some(10)@\
    9223372036854775807|Some(9223372036854775807) Some(9223372036854775807)@\
    9223372036854775808|Some(9223372036854775808) None@\
    18446744073709551615|Some(18446744073709551615) None@\
    18446744073709551616|None None@\
    -1|None Some(-1)@\
    -9223372036854775808|None Some(-9223372036854775808)@\
    -9223372036854775809|None None@\
    |None None@\
    00|None None@\
    01|None None@\
    +1|None None@\
    -0|None None@\
    -|None None@\
    --1|None None@\
    1 |None None@\
    é|None None@\
    a|None None";

/// Whether the transactions run as a list, or the one alone; a program; its actors; the lines that ask for the transactions; and
/// what these give, with the first field of each actor then. Rows end with `@`, their parts with `|`.
pub const RUNS: &str = "\
    alone|method put(n) { f0 = f0 + n; return f0; }\nmethod move(to, n) { f0 = f0 - n; let r = call to put(n); return r; }|actors 2\nactor 0 100\nactor 1 50|pact 0 move 1 30 uses 0:1 1:1|Value(80) then 70 80@\
    alone|method put(n) { f0 = f0 + n; fail 9; }\nmethod move(to, n) { f0 = f0 - n; let r = call to put(n); return r; }|actors 2\nactor 0 100\nactor 1 50|pact 0 move 1 30 uses 0:1 1:1|Fail(9) then 100 50@\
    list|method put(n) { f0 = f0 + n; return f0; }|actors 2\nactor 0 100\nactor 1 50||then 100 50@\
    list|method put(n) { f0 = f0 + n; return f0; }\nmethod move(to, n) { f0 = f0 - n; let r = call to put(n); return r; }\nmethod bad() { f0 = f0 + 1; fail 9; }\nmethod via(to) { f0 = 1; let r = call to bad(); return r; }|actors 2\nactor 0 100\nactor 1 50|pact 0 move 1 30 uses 0:1 1:1\npact 0 via 1 uses 0:1 1:1\npact 1 move 0 80 uses 0:1 1:1|Value(80) Fail(9) Value(150) then 150 0@\
    list|method a(b) { f0 = f0 + b; if f0 < 3 { let c = call self a(1); } return f0; }|actors 1\nactor 0 1|pact 0 a 1 uses 0:1\npact 0 a 1 uses 0:2|Fail(1001) Value(3) then 3@\
    list|read method peek() { return f0; }\nread method sum(a, b) { let x = call a peek(); let y = call b peek(); return x + y; }\nmethod put(n) { let s = call self sum(0, 1); f0 = n; return s; }|actors 2\nactor 0 100\nactor 1 50|act 0 sum 0 1\npact 1 sum 1 0 uses 0:1 1:2\nact 0 put 7\nact 1 sum 0 0|Value(150) Value(150) Value(150) Value(14) then 7 50";

/// A text, and its tokens, each behind the place of its first byte; a name, a field, `let` and a closing brace tell
/// their line. Then `end`, or the place of the first piece that is no token, and why.
pub const TOKENS: &str = "\
    |end@\
    \x20\t\n# only # a comment|end@\
    (){},;=|0 Open 1 Close 2 OpenBrace 3 }:1 4 Comma 5 Semicolon 6 Assign end@\
    ==!=<<=>>=+-*/%|0 Equal 2 NotEqual 4 Less 5 LessOrEqual 7 Greater 8 GreaterOrEqual 10 Plus 11 Minus 12 Times 13 Over 14 Remainder end@\
    === <== !|0 Equal 2 Assign 4 LessOrEqual 6 Assign 8 BadToken@\
    ! =|0 BadToken@\
    0 7 10 9223372036854775807|0 0 2 7 4 10 7 9223372036854775807 end@\
    1 00|0 1 2 BadToken@\
    07|0 BadToken@\
    12a|0 BadToken@\
    1_|0 BadToken@\
    99999999999999999999x|0 BadToken@\
    9223372036854775808|0 NumberRange@\
    184467440737095516160000000000000000000000000000|0 NumberRange@\
    method read let if else while call fail return self and or|0 Method 7 Read 12 let:1 16 If 19 Else 24 While 30 Call 35 Fail 40 Return 47 Own 52 And 56 Or end@\
    f0 f9 f10 f15 f16 f01 f f1x Self _ a1_B|0 f0:1 3 f9:1 6 f10:1 10 f15:1 14 f16:1 18 f01:1 22 f:1 24 f1x:1 28 Self:1 33 _:1 35 a1_B:1 end@\
    abcdefghijklmnopqrstuvwxyz012345|0 abcdefghijklmnopqrstuvwxyz012345:1 end@\
    abcdefghijklmnopqrstuvwxyz0123456|0 BadToken@\
    a\n\tb#c ! é\n}#|0 a:1 3 b:2 12 }:3 end@\
    a#\n=|0 a:1 3 Assign end@\
    let\n\nlet f3\nf3 lets reads|0 let:1 5 let:3 9 f3:3 12 f3:4 15 lets:4 20 reads:4 end@\
    a\r\n|0 a:1 1 BadByte@\
    a.b|0 a:1 1 BadByte@\
    é|0 BadByte@\
    \0|0 BadByte";

/// A text that is no program's, and the line, the column and the cause of its first fault.
pub const FAULTS: &str = "\
    |1:1 Unexpected@\
    method m() {|1:13 Unexpected@\
    method m() { } x|1:16 Unexpected@\
    method m(a,) { }|1:12 Unexpected@\
    method m(a,a,a,a,a,a,a,a,a) { }|1:26 TooMany@\
    method m() { return 1 < 2 < 3; }|1:27 Unexpected@\
    method m() { f0 = f0 + n return f0; }|1:26 Unexpected@\
    method m() { if 1 { } else return 1; }|1:28 Unexpected@\
    method m() { let a = call 1 put(; }|1:33 Unexpected@\
    method m() { let a = call -1 put(); }|1:27 Unexpected@\
    method m() { let = 1; }|1:18 Unexpected@\
    method m() { 7 }|1:14 Unexpected@\
    method m() { fail 0; }|1:19 NumberRange@\
    method m() { fail 1000; }|1:19 NumberRange@\
    method m() {\n return 01; }|2:9 BadToken@\
    read|1:5 Unexpected@\
    read\n m() { }|2:2 Unexpected@\
    read read method m() { }|1:6 Unexpected@\
    method read() { }|1:8 Unexpected@\
    method m() { read; }|1:14 Unexpected@\
    method m() {\n\n return $; }|3:9 BadByte@\
    method m() { } $|1:16 BadByte@\
    method m() { fail 0; $ }|1:19 NumberRange@\
    method m() { let if = $; }|1:18 Unexpected@\
    method m() { 9223372036854775808 }|1:14 NumberRange@\
    method m() { # at the end\n \n |3:2 Unexpected";

/// A text of a program, and the text that its tree is printed as; the last is five methods over accounts.
pub const PRINTED: &str = "\
    method\tm ( ) { }|method m(){}@\
    read\n\tmethod m() { }\nmethod n() { let\n a = call f0 m(); }\n|read method m(){}method n(){let a=call f0 m();}@\
    # every construct\nmethod one() { }\nmethod all(to, n) {\n  let a = 1 - 2 - 3 * 4 / 5 % 6 + f0; # from the left\n  let b = call self put();\n  let c = call (to) put(-n, - -1, ((2)));\n  a = a == 1 or a != 2 and a < 3 or a <= 4 and a > 5 or a >= 6;\n  f15 = (-1) * (a or b);\n  if a { }\n  if n < 9223372036854775807 { fail 999; } else { fail 1; }\n  while (a) { n = n - 1; }\n  return self;\n}\n|\
    method one(){}method all(to,n){let a=1-2-3*4/5%6+f0;let b=call self put();let c=call(to)put(-n,--1,((2)));a=a==1 or a!=2 and a<3 or a<=4 and a>5 or a>=6;f15=(-1)*(a or b);if a{}if n<9223372036854775807{fail 999;}else{fail 1;}while(a){n=n-1;}return self;}@\
    method move(to, n) {\n if f0 < n { fail 7; } else { }\n let r = call to put(n, -(1));\n while not { r = self; }\n f15 = r * 2 + 1;\n return r;\n}\nmethod put() { }|\
    method move(to,n){if f0<n{fail 7;}else{}let r=call to put(n,-(1));while not{r=self;}f15=r*2+1;return r;}method put(){}@\
    method balance() { return f0 + f1; }\nmethod deposit(v) { f0 = f0 + v; return f0; }\nmethod savings(v) { f1 = f1 + v; return f1; }\nmethod amalgamate(b) { let s = f0 + f1; f0 = 0; f1 = 0; let r = call b deposit(s); return r; }\nmethod check(v) { if f0 + f1 < v { f0 = f0 - v - 1; return f0; } f0 = f0 - v; return f0; }\n|\
    method balance(){return f0+f1;}method deposit(v){f0=f0+v;return f0;}method savings(v){f1=f1+v;return f1;}method amalgamate(b){let s=f0+f1;f0=0;f1=0;let r=call b deposit(s);return r;}method check(v){if f0+f1<v{f0=f0-v-1;return f0;}f0=f0-v;return f0;}";
