// An `if` without `else` goes on behind its statement.
pub const CHOICES: (&str, &str) = (
    "\
'use strict';
var a = 1;
if (a) a = 2;
if (a) a = 3; else a = 4;
if (a) { } else if (a) a = 5; else { a = 6; a = 7; }
if (a) ; else ;
",
    "\
0 at 1:0 l3 = object
1 at 1:0 l4 = object
2 at 1:0 l3.exports = l4
3 at 1:0 cell 0 = l3
4 at 1:0 l0 = l3
5 at 1:0 l1 = l4
6 at 2:22 l3 = literal 1
7 at 2:14 l2 = l3
8 at 3:29 l3 = l2
9 at 3:25 branch 10 12
10 at 3:36 l3 = literal 2
11 at 3:32 l2 = l3
12 at 4:43 l3 = l2
13 at 4:39 branch 14 17
14 at 4:50 l3 = literal 3
15 at 4:46 l2 = l3
16 at 4:39 branch 19 19
17 at 4:62 l3 = literal 4
18 at 4:58 l2 = l3
19 at 5:69 l3 = l2
20 at 5:65 branch 21 22
21 at 5:65 branch 31 31
22 at 5:85 l3 = l2
23 at 5:81 branch 24 27
24 at 5:92 l3 = literal 5
25 at 5:88 l2 = l3
26 at 5:81 branch 31 31
27 at 5:106 l3 = literal 6
28 at 5:102 l2 = l3
29 at 5:113 l3 = literal 7
30 at 5:109 l2 = l3
31 at 6:122 l3 = l2
32 at 6:118 branch 33 34
33 at 6:118 branch 34 34
34 at 1:0 l3 = literal undefined
35 at 1:0 return l3
function 0 in - at 1:0 sites 0..35 locals 5 -
cells of 0
file 0 index.js body 0 module cell 0
",
);

// `continue` goes on at the step of a `for`, and at the test of a `do`. A `for` without a step goes back to its test.
pub const LOOPS: (&str, &str) = (
    "\
'use strict';
var a = 1, o = {};
while (a) a = 0;
do a = 1; while (a);
for (a = 0; a; a++) o = a;
for (var i = 0, j; ; i++) { if (i) break; continue; }
for (; a; ) a = 0;
for (;;) { while (1) { break; } continue; }
do { if (a) continue; break; } while (a);
",
    "\
0 at 1:0 l6 = object
1 at 1:0 l7 = object
2 at 1:0 l6.exports = l7
3 at 1:0 cell 0 = l6
4 at 1:0 l0 = l6
5 at 1:0 l1 = l7
6 at 2:22 l6 = literal 1
7 at 2:14 l2 = l6
8 at 2:29 l6 = object
9 at 2:14 l3 = l6
10 at 3:40 l6 = l2
11 at 3:33 branch 12 15
12 at 3:47 l6 = literal 0
13 at 3:43 l2 = l6
14 at 3:33 branch 10 10
15 at 4:57 l6 = literal 1
16 at 4:53 l2 = l6
17 at 4:67 l6 = l2
18 at 4:50 branch 15 19
19 at 5:80 l6 = literal 0
20 at 5:76 l2 = l6
21 at 5:83 l6 = l2
22 at 5:71 branch 23 30
23 at 5:95 l6 = l2
24 at 5:91 l3 = l6
25 at 5:86 l6 = l2
26 at 5:86 l6 = op l6
27 at 5:86 l7 = op l6
28 at 5:86 l2 = l7
29 at 5:71 branch 21 21
30 at 6:111 l6 = literal 0
31 at 6:103 l4 = l6
32 at 6:98 branch 33 42
33 at 6:130 l6 = l4
34 at 6:126 branch 35 36
35 at 6:133 branch 42 42
36 at 6:140 branch 37 37
37 at 6:119 l6 = l4
38 at 6:119 l6 = op l6
39 at 6:119 l7 = op l6
40 at 6:119 l4 = l7
41 at 6:98 branch 32 32
42 at 7:159 l6 = l2
43 at 7:152 branch 44 47
44 at 7:168 l6 = literal 0
45 at 7:164 l2 = l6
46 at 7:152 branch 42 42
47 at 8:171 branch 48 54
48 at 8:189 l6 = literal 1
49 at 8:182 branch 50 52
50 at 8:194 branch 52 52
51 at 8:182 branch 48 48
52 at 8:203 branch 53 53
53 at 8:171 branch 47 47
54 at 9:224 l6 = l2
55 at 9:220 branch 56 57
56 at 9:227 branch 58 58
57 at 9:237 branch 60 60
58 at 9:253 l6 = l2
59 at 9:215 branch 54 60
60 at 1:0 l6 = literal undefined
61 at 1:0 return l6
function 0 in - at 1:0 sites 0..61 locals 8 -
cells of 0
file 0 index.js body 0 module cell 0
",
);

// Each loop over names has a local of its own, behind the names, and goes round until it is left.
pub const FOR_IN: (&str, &str) = (
    "\
'use strict';
var a = {}, o = {}, c;
function g() { return c; }
for (c in a) o = c;
for (o[a] in a) break;
for (var m in a) for (var n in m) o = n;
",
    "\
0 at 1:0 l11 = object
1 at 1:0 l12 = object
2 at 1:0 l11.exports = l12
3 at 1:0 cell 0 = l11
4 at 1:0 l0 = l11
5 at 1:0 l1 = l12
6 at 3:37 l11 = function 1
7 at 3:37 l4 = l11
8 at 2:22 l11 = object
9 at 2:14 l2 = l11
10 at 2:30 l11 = object
11 at 2:14 l3 = l11
12 at 4:74 l11 = l2
13 at 4:64 l7 = l11
14 at 4:64 branch 15 20
15 at 4:74 l11 = op l7
16 at 4:69 cell 1 = l11
17 at 4:81 l11 = cell 1
18 at 4:77 l3 = l11
19 at 4:64 branch 14 14
20 at 5:97 l11 = l2
21 at 5:84 l8 = l11
22 at 5:84 branch 23 29
23 at 5:97 l11 = op l8
24 at 5:91 l12 = l2
25 at 5:89 l12 = op l12
26 at 5:89 l3[l12] = l11
27 at 5:100 branch 29 29
28 at 5:84 branch 22 22
29 at 6:121 l11 = l2
30 at 6:107 l9 = l11
31 at 6:107 branch 32 43
32 at 6:121 l11 = op l9
33 at 6:112 l5 = l11
34 at 6:138 l11 = l5
35 at 6:124 l10 = l11
36 at 6:124 branch 37 42
37 at 6:138 l11 = op l10
38 at 6:129 l6 = l11
39 at 6:145 l11 = l6
40 at 6:141 l3 = l11
41 at 6:124 branch 36 36
42 at 6:107 branch 31 31
43 at 1:0 l11 = literal undefined
44 at 1:0 return l11
45 at 3:59 l0 = cell 1
46 at 3:52 return l0
47 at 3:37 l0 = literal undefined
48 at 3:37 return l0
function 0 in - at 1:0 sites 0..44 locals 13 -
function 1 in 0 at 3:37 sites 45..48 locals 1 g
cells of 0 0
file 0 index.js body 0 module cell 0
",
);

// A function ends in a return of `undefined`, whatever stands before.
pub const RETURNS: (&str, &str) = (
    "\
'use strict';
function f(a) {
  if (a) return;
  if (!a) return a;
  throw a;
}
function g() { throw 'x'; }
function h() { }
",
    "\
0 at 1:0 l5 = object
1 at 1:0 l6 = object
2 at 1:0 l5.exports = l6
3 at 1:0 cell 0 = l5
4 at 1:0 l0 = l5
5 at 1:0 l1 = l6
6 at 2:14 l5 = function 1
7 at 2:14 l2 = l5
8 at 7:80 l5 = function 2
9 at 7:80 l3 = l5
10 at 8:108 l5 = function 3
11 at 8:108 l4 = l5
12 at 1:0 l5 = literal undefined
13 at 1:0 return l5
14 at 3:36 l1 = l0
15 at 3:32 branch 16 18
16 at 3:39 l1 = literal undefined
17 at 3:39 return l1
18 at 4:54 l1 = l0
19 at 4:53 l1 = op l1
20 at 4:49 branch 21 23
21 at 4:64 l1 = l0
22 at 4:57 return l1
23 at 5:75 l1 = l0
24 at 5:69 throw l1
25 at 2:14 l1 = literal undefined
26 at 2:14 return l1
27 at 7:101 l0 = literal x
28 at 7:95 throw l0
29 at 7:80 l0 = literal undefined
30 at 7:80 return l0
31 at 8:108 l0 = literal undefined
32 at 8:108 return l0
function 0 in - at 1:0 sites 0..13 locals 7 -
function 1 in 0 at 2:14 sites 14..26 locals 2 f a
function 2 in 0 at 7:80 sites 27..30 locals 1 g
function 3 in 0 at 8:108 sites 31..32 locals 1 h
cells of 0
file 0 index.js body 0 module cell 0
",
);
