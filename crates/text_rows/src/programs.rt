//! Programs that stand in a work text as its line 8, and what is wrong with them first. Rows end with `@`, their parts
//! with `|`.

/// The program, and the line, the column and the cause of the fault of its text.
pub const TEXT_FAULTS: &str = "\
    $|8:1 BadByte@\
    method f() { return 1; }$|8:25 BadByte@\
    method f() {\r\n return 1; }|8:13 BadByte@\
    method f() {\n return 1; # note\n}\r|10:2 BadByte@\
    method f() { return 1 & 2; }|8:23 BadByte@\
    method f() { return\x0c1; }|8:20 BadByte@\
    method f() { return é; }|8:21 BadByte@\
    method f() { return aé; }|8:22 BadByte@\
    method f() { return \"a\"; }|8:21 BadByte@\
    00|8:1 BadToken@\
    method f() { return 01; }|8:21 BadToken@\
    method f() { return 12a; }|8:21 BadToken@\
    method f() { return 1_; }|8:21 BadToken@\
    method f() { return 1f0; }|8:21 BadToken@\
    method f() { return 0x1; }|8:21 BadToken@\
    method f() { return 1 ! = 2; }|8:23 BadToken@\
    method f() { return 1; }!|8:25 BadToken@\
    method abcdefghijklmnopqrstuvwxyz_012345() { return 1; }|8:8 BadToken@\
    method f() { return _23456789012345678901234567890123; }|8:21 BadToken@\
    method f() { return 09223372036854775808; }|8:21 BadToken@\
    method f() { fail 01; }|8:19 BadToken@\
    9223372036854775808|8:1 NumberRange@\
    method f() { return 9223372036854775808; }|8:21 NumberRange@\
    method f() { return -9223372036854775808; }|8:22 NumberRange@\
    method f() { return 99999999999999999999999999; }|8:21 NumberRange@\
    method f() { fail 0; }|8:19 NumberRange@\
    method f() { fail 1000; }|8:19 NumberRange@\
    method f() { fail 9223372036854775807; }|8:19 NumberRange@\
    method f() { fail 9223372036854775808; }|8:19 NumberRange@\
    method f() { fail 1000 }|8:19 NumberRange@\
    method f() { return $ fail 0; }|8:21 BadByte@\
    method_f() { return 1; }|8:1 Unexpected@\
    f() { return 1; }|8:1 Unexpected@\
    method () { return 1; }|8:8 Unexpected@\
    method f0() { return 1; }|8:8 Unexpected@\
    method self() { return 1; }|8:8 Unexpected@\
    method 7() { return 1; }|8:8 Unexpected@\
    read|9:1 Unexpected@\
    read f() { return 1; }|8:6 Unexpected@\
    read { return 1; }|8:6 Unexpected@\
    read read method f() { return 1; }|8:6 Unexpected@\
    method read f() { return 1; }|8:8 Unexpected@\
    method f() { return read; }|8:21 Unexpected@\
    method f() { let read = 1; return 1; }|8:18 Unexpected@\
    method f() { return 1; } read|9:1 Unexpected@\
    method f{ return 1; }|8:9 Unexpected@\
    method f(,) { return 1; }|8:10 Unexpected@\
    method f(a,) { return a; }|8:12 Unexpected@\
    method f(a b) { return a; }|8:12 Unexpected@\
    method f(f3) { return 1; }|8:10 Unexpected@\
    method f() return 1;|8:12 Unexpected@\
    method f() { return 1; } }|8:26 Unexpected@\
    method f() { return 1; }\n\n  7|10:3 Unexpected@\
    method f() { ; return 1; }|8:14 Unexpected@\
    method f() { 1 = 2; return 1; }|8:14 Unexpected@\
    method f() { self = 2; return 1; }|8:14 Unexpected@\
    method f() { else { } return 1; }|8:14 Unexpected@\
    method f() { f0 == 1; return 1; }|8:17 Unexpected@\
    method f() { f0 = = 1; return 1; }|8:19 Unexpected@\
    method f() { f0 = 1 return f0; }|8:21 Unexpected@\
    method f() { let = 1; return 1; }|8:18 Unexpected@\
    method f() { let f1 = 1; return 1; }|8:18 Unexpected@\
    method f() { let a 1; return 1; }|8:20 Unexpected@\
    method f() { a == 1; return 1; }|8:16 Unexpected@\
    method f() { if { } return 1; }|8:17 Unexpected@\
    method f() { if 1 return 1; }|8:19 Unexpected@\
    method f() { if 1 { } else if 2 { } return 1; }|8:28 Unexpected@\
    method f() { while 1 ; return 1; }|8:22 Unexpected@\
    method f() { fail a; }|8:19 Unexpected@\
    method f() { fail -1; }|8:19 Unexpected@\
    method f() { fail 1 + 1; }|8:21 Unexpected@\
    method f() { return; }|8:20 Unexpected@\
    method f() { return 1}|8:22 Unexpected@\
    method f() { return call 0 f(); }|8:21 Unexpected@\
    method f() { let a = call -1 f(); return a; }|8:27 Unexpected@\
    method f() { let a = call 1 + 1 f(); return a; }|8:29 Unexpected@\
    method f() { let a = call 0 f0(); return a; }|8:29 Unexpected@\
    method f() { let a = call 0 f; return a; }|8:30 Unexpected@\
    method f() { let a = call 0 f(1,); return a; }|8:33 Unexpected@\
    method f() { let a = call 0 f(1 2); return a; }|8:33 Unexpected@\
    method f() { let a = call 0 f() + 1; return a; }|8:33 Unexpected@\
    method f() { return 1 < 2 < 3; }|8:27 Unexpected@\
    method f() { return 1 == 2 != 3; }|8:28 Unexpected@\
    method f() { return 1 + ; }|8:25 Unexpected@\
    method f() { return * 2; }|8:21 Unexpected@\
    method f() { return +1; }|8:21 Unexpected@\
    method f() { return (); }|8:22 Unexpected@\
    method f() { return (1; }|8:23 Unexpected@\
    method f() { return 1); }|8:22 Unexpected@\
    method f() { return 1 === 1; }|8:25 Unexpected@\
    method f() { return 1 and or 2; }|8:27 Unexpected@\
    method f() { return not f0; }|8:25 Unexpected@\
    |9:1 Unexpected@\
    # nothing|9:1 Unexpected@\
    method f() { return 1;|9:1 Unexpected@\
    method f() { return 1; # }\n\t\n # }|11:1 Unexpected@\
    method|9:1 Unexpected@\
    method f(a, b, c, d, e, g, h, i, if) { return 1; }|8:34 Unexpected@\
    method f(a, b, c, d, e, g, h, i, 1a) { return 1; }|8:34 BadToken@\
    method f(a, b, c, d, e, g, h, i, j) { return 1; }|8:34 TooMany@\
    method f(a, b, c, d, e, g, h, i, a) { return 1; }|8:34 TooMany@\
    method f() { return g; }\nmethod f{ }|9:9 Unexpected@\
    method f() { }\nmethod g() { return 1; } $|9:26 BadByte@\
    end|8:1 Unexpected@\
    $\nend|8:1 BadByte@\
    method f() { return 1; }\n end\n# end|9:2 Unexpected@\
    method f() { return 1; }\nend\r|9:1 Unexpected";

/// The program, and the line and the cause of its first fault where it is one of a promise only to read, or stands before or
/// beside one; or `good`.
pub const PROMISES: &str = "\
    read method peek() { f0 = 1; return f0; }|8 ReadWrites@\
    read\nmethod f() {\n f0\n = 1; return 1; }|10 ReadWrites@\
    read method f() { return 1;\n f0 = 1; return 1; }|9 ReadWrites@\
    read method f() { if 1 { while 1 {\n f0 = 1; } } return 1; }|9 ReadWrites@\
    read method f() { if 1 { return 1; } else {\n f0 = a; } return 1; }|9 ReadWrites@\
    read method f() {\n let\n a = call 0 g(); return a; }\nmethod g() { return 1; }|9 ReadWrites@\
    read method f(a) {\n let\n a = call 0 g(); return a; }\nmethod g() { return 1; }|9 ReadWrites@\
    read method f() {\n let a = call 0\n g(1); return a; }\nmethod g() { return 1; }|9 ReadWrites@\
    read method f() { let a = call 0 g(); return a; }\nmethod g() { return 1; }\nread method g() { return 1; }|8 ReadWrites@\
    read method f() { let a = call 0 g(); return a; }\nread method g() { return 1; }\nmethod g() { return 1; }|10 Duplicate@\
    read method f() {\n let a = call 0\n g(); return a; }|10 UnknownName@\
    read method f(a) {\n let\n a = call 0 g(); return a; }|10 Duplicate@\
    read method f() { let a = call 0 g(); return a; }\nread method g() { let a = call 0 h(); return a; }\nmethod h() { return 1; }|9 ReadWrites@\
    read method f() {\n let a = 1; f0 = a; }|9 ReadWrites@\
    read method f() {\n let a = 1;\n}|10 NoReturn@\
    method f() { let a = call 0 g(); return a; }\nread method g() {\n f0 = 1; return 1; }|10 ReadWrites@\
    read method f() { return f0; }|good@\
    read method f(n) { let a = 1; while a < n { a = a + 1; } if a { let b = call self f(n); return b; } fail 7; }|good@\
    read method f() { let a = call 1 g(); return a; }\nread method g() { return f1; }|good@\
    method f() { let a = call 1 g(); f0 = a; return a; }\nread method g() { return f1; }|good@\
    read\n# which reads\nmethod f() { return 1; }|good";

/// A front, a part and how often it stands behind it, what stands between, what closes as often, what stands behind,
/// and the fault: the limits of a program, each reached and passed.
pub const LIMITS: &str = "\
    |method m(){return 1;}\n|64||||9 Duplicate@\
    |method m(){}|65||||8:769 TooMany@\
    |read method m(){}|65||||8:1089 TooMany@\
    |method m(){}|64|||read method m(){}|8:769 TooMany@\
    |read method m(){}|64|||read m(){}|8:1089 TooMany@\
    |read method m(){return 1;}\n|64||||9 Duplicate@\
    method f(p){|if 1{let a=1;}|31|||return 1;}method g(p){return 1;}|good@\
    method f(p){|if 1{let a=1;}|32|||return 1;}|8:456 TooMany@\
    method f(p){|if 1{let a=call 0 f(1);}|32|||return 1;}|8:766 TooMany@\
    method f(a,b,c,d,e,g,h,i){|if 1{let z=1;}|24|||return 1;}|good@\
    method f(a,b,c,d,e,g,h,i){|if 1{let z=1;}|25|||return 1;}|8:372 TooMany@\
    method f(){return 1|+1|20000|||;}|good@\
    method f(){return -1|--1|1000|||;}|good@\
    method f(){|f0=1;|10000|||return 1;}|good@\
    method f(){|if 1{|31||}|return 1;}|good@\
    method f(){|if 1{|32||}|return 1;}|8:171 TooDeep@\
    method f(){|while 1{|31||}|return 1;}|good@\
    method f(){|while 1{|32||}|return 1;}|8:267 TooDeep@\
    method f(){|if 1{}else{|31||}|return 1;}|good@\
    method f(){|if 1{}else{|32||}|return 1;}|8:357 TooDeep@\
    method f(){return |(|31|1|)|;}|good@\
    method f(){return |(|32|1|)|;}|8:50 TooDeep@\
    method f(){return |-|31|1||;}|good@\
    method f(){return |-|32|1||;}|8:50 TooDeep@\
    method f(){return |-(|15|(1)|)|;}|good@\
    method f(){return |-(|16|1|)|;}|8:50 TooDeep@\
    method f(){|if 1{|30|let a=call 0 f();|}|return 1;}|good@\
    method f(){|if 1{|31|let a=call 0 f();|}|return 1;}|8:181 TooDeep@\
    method f(){|if 1{|30|let a=call 0 f((1));|}|return 1;}|8:177 TooDeep@\
    method f(){|if 1{|31|if {|}||8:170 Unexpected@\
    #|x|65513|\n||method f(){return 1;}|good@\
    #|x|65513|\n||method f(){return 1;} \n# }\n\t\n#|good@\
    #|x|65514|\n||method f(){return 1;}|9:21 TooMany@\
    #|x|65513|\n||method f(){return 1;} x|9:23 TooMany@\
    #|x|65513|\n||method f(){return 1;}}|9:22 TooMany@\
    #|x|65513|\n||method f(){return 1;} $|9:23 BadByte@\
    #|x|65513|\n||method f(){return 1;} 01|9:23 BadToken@\
    #|x|65513|\n||method f(){return 1;} 9223372036854775808|9:23 NumberRange@\
    #|x|65514|\n||method f(){return 12;}|9:21 TooMany@\
    #|x|65515|\n||method f(){return 12;}|9:19 TooMany@\
    #|x|70000|\n|||10:1 Unexpected@\
    #|x|70000|\n||method|9:1 TooMany";
