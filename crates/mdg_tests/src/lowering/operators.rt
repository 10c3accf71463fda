// `&&`, `||` and `?:` branch, and each way leaves its value in the same local.
pub const OPERATORS: (&str, &str) = (
    "\
'use strict';
var a = 1, b = 2;
+a; -a; ~a; !a; typeof a; typeof nothing; typeof (nothing); void a; void (a = 1);
a + b; a - b * a; a == b; a < b; 'x' in a; a instanceof b; a && b; a || b; a && b || a; a ? b : 1; a, b; (a, b), 1;
",
    "\
0 at 1:0 l4 = object
1 at 1:0 l5 = object
2 at 1:0 l4.exports = l5
3 at 1:0 cell 0 = l4
4 at 1:0 l0 = l4
5 at 1:0 l1 = l5
6 at 2:22 l4 = literal 1
7 at 2:14 l2 = l4
8 at 2:29 l4 = literal 2
9 at 2:14 l3 = l4
10 at 3:33 l4 = l2
11 at 3:32 l4 = op l4
12 at 3:37 l4 = l2
13 at 3:36 l4 = op l4
14 at 3:41 l4 = l2
15 at 3:40 l4 = op l4
16 at 3:45 l4 = l2
17 at 3:44 l4 = op l4
18 at 3:55 l4 = l2
19 at 3:48 l4 = op l4
20 at 3:58 l4 = op
21 at 3:74 l4 = op
22 at 3:97 l4 = l2
23 at 3:92 l4 = literal undefined
24 at 3:110 l4 = literal 1
25 at 3:106 l2 = l4
26 at 3:100 l4 = literal undefined
27 at 4:114 l4 = l2
28 at 4:118 l5 = l3
29 at 4:114 l4 = op l4 l5
30 at 4:121 l4 = l2
31 at 4:125 l5 = l3
32 at 4:129 l6 = l2
33 at 4:125 l5 = op l5 l6
34 at 4:121 l4 = op l4 l5
35 at 4:132 l4 = l2
36 at 4:137 l5 = l3
37 at 4:132 l4 = op l4 l5
38 at 4:140 l4 = l2
39 at 4:144 l5 = l3
40 at 4:140 l4 = op l4 l5
41 at 4:147 l4 = literal x
42 at 4:154 l5 = l2
43 at 4:147 l4 = op l4 l5
44 at 4:157 l4 = l2
45 at 4:170 l5 = l3
46 at 4:157 l4 = op l4 l5
47 at 4:173 l4 = l2
48 at 4:173 branch 49 50
49 at 4:178 l4 = l3
50 at 4:181 l4 = l2
51 at 4:181 branch 52 53
52 at 4:186 l4 = l3
53 at 4:189 l4 = l2
54 at 4:189 branch 55 56
55 at 4:194 l4 = l3
56 at 4:189 branch 57 58
57 at 4:199 l4 = l2
58 at 4:202 l4 = l2
59 at 4:202 branch 60 62
60 at 4:206 l4 = l3
61 at 4:202 branch 63 63
62 at 4:210 l4 = literal 1
63 at 4:213 l4 = l2
64 at 4:216 l4 = l3
65 at 4:220 l4 = l2
66 at 4:223 l4 = l3
67 at 4:227 l4 = literal 1
68 at 1:0 l4 = literal undefined
69 at 1:0 return l4
function 0 in - at 1:0 sites 0..69 locals 7 -
cells of 0
file 0 index.js body 0 module cell 0
",
);

// The target is evaluated before the value, and is read first where the operator needs it.
pub const ASSIGNED: (&str, &str) = (
    "\
'use strict';
var a = 1, o = {};
function g() { return c; }
var c = 2;
a = c; c = a; a += 1; c -= a; o.p += a; o[a] *= c; o.p.q /= 2; o[a + 'x'] %= 3; a = o.p = c = 4;
",
    "\
0 at 1:0 l5 = object
1 at 1:0 l6 = object
2 at 1:0 l5.exports = l6
3 at 1:0 cell 0 = l5
4 at 1:0 l0 = l5
5 at 1:0 l1 = l6
6 at 3:33 l5 = function 1
7 at 3:33 l4 = l5
8 at 2:22 l5 = literal 1
9 at 2:14 l2 = l5
10 at 2:29 l5 = object
11 at 2:14 l3 = l5
12 at 4:68 l5 = literal 2
13 at 4:60 cell 1 = l5
14 at 5:75 l5 = cell 1
15 at 5:71 l2 = l5
16 at 5:82 l5 = l2
17 at 5:78 cell 1 = l5
18 at 5:85 l5 = l2
19 at 5:90 l6 = literal 1
20 at 5:85 l5 = op l5 l6
21 at 5:85 l2 = l5
22 at 5:93 l5 = cell 1
23 at 5:98 l6 = l2
24 at 5:93 l5 = op l5 l6
25 at 5:93 cell 1 = l5
26 at 5:101 l5 = l3.p
27 at 5:108 l6 = l2
28 at 5:101 l5 = op l5 l6
29 at 5:101 l3.p = l5
30 at 5:113 l5 = l2
31 at 5:111 l5 = op l5
32 at 5:111 l6 = l3[l5]
33 at 5:119 l7 = cell 1
34 at 5:111 l6 = op l6 l7
35 at 5:111 l3[l5] = l6
36 at 5:111 l5 = l6
37 at 5:122 l5 = l3.p
38 at 5:122 l6 = l5.q
39 at 5:131 l7 = literal 2
40 at 5:122 l6 = op l6 l7
41 at 5:122 l5.q = l6
42 at 5:122 l5 = l6
43 at 5:136 l5 = l2
44 at 5:140 l6 = literal x
45 at 5:136 l5 = op l5 l6
46 at 5:134 l5 = op l5
47 at 5:134 l6 = l3[l5]
48 at 5:148 l7 = literal 3
49 at 5:134 l6 = op l6 l7
50 at 5:134 l3[l5] = l6
51 at 5:134 l5 = l6
52 at 5:165 l5 = literal 4
53 at 5:161 cell 1 = l5
54 at 5:155 l3.p = l5
55 at 5:151 l2 = l5
56 at 1:0 l5 = literal undefined
57 at 1:0 return l5
58 at 3:55 l0 = cell 1
59 at 3:48 return l0
60 at 3:33 l0 = literal undefined
61 at 3:33 return l0
function 0 in - at 1:0 sites 0..57 locals 8 -
function 1 in 0 at 3:33 sites 58..61 locals 1 g
cells of 0 0
file 0 index.js body 0 module cell 0
",
);

// A step reads its target, makes a number of it, and writes it back.
pub const STEPS: (&str, &str) = (
    "\
'use strict';
var a = 1, o = {}, c;
function g() { return c; }
++a; --a; a++; a--; ++c; c--; ++o.p; o.p++; --o[a]; o[a]--; o[a + 1]++; ++o.p.q; o['k']++; a = o.p++ + ++o.p;
",
    "\
0 at 1:0 l5 = object
1 at 1:0 l6 = object
2 at 1:0 l5.exports = l6
3 at 1:0 cell 0 = l5
4 at 1:0 l0 = l5
5 at 1:0 l1 = l6
6 at 3:36 l5 = function 1
7 at 3:36 l4 = l5
8 at 2:22 l5 = literal 1
9 at 2:14 l2 = l5
10 at 2:29 l5 = object
11 at 2:14 l3 = l5
12 at 4:65 l5 = l2
13 at 4:63 l5 = op l5
14 at 4:63 l2 = l5
15 at 4:70 l5 = l2
16 at 4:68 l5 = op l5
17 at 4:68 l2 = l5
18 at 4:73 l5 = l2
19 at 4:73 l5 = op l5
20 at 4:73 l6 = op l5
21 at 4:73 l2 = l6
22 at 4:78 l5 = l2
23 at 4:78 l5 = op l5
24 at 4:78 l6 = op l5
25 at 4:78 l2 = l6
26 at 4:85 l5 = cell 1
27 at 4:83 l5 = op l5
28 at 4:83 cell 1 = l5
29 at 4:88 l5 = cell 1
30 at 4:88 l5 = op l5
31 at 4:88 l6 = op l5
32 at 4:88 cell 1 = l6
33 at 4:93 l5 = l3.p
34 at 4:93 l5 = op l5
35 at 4:93 l3.p = l5
36 at 4:100 l5 = l3.p
37 at 4:100 l5 = op l5
38 at 4:100 l6 = op l5
39 at 4:100 l3.p = l6
40 at 4:111 l5 = l2
41 at 4:107 l5 = op l5
42 at 4:107 l6 = l3[l5]
43 at 4:107 l6 = op l6
44 at 4:107 l3[l5] = l6
45 at 4:107 l5 = l6
46 at 4:117 l5 = l2
47 at 4:115 l5 = op l5
48 at 4:115 l6 = l3[l5]
49 at 4:115 l6 = op l6
50 at 4:115 l7 = op l6
51 at 4:115 l3[l5] = l7
52 at 4:115 l5 = l6
53 at 4:125 l5 = l2
54 at 4:129 l6 = literal 1
55 at 4:125 l5 = op l5 l6
56 at 4:123 l5 = op l5
57 at 4:123 l6 = l3[l5]
58 at 4:123 l6 = op l6
59 at 4:123 l7 = op l6
60 at 4:123 l3[l5] = l7
61 at 4:123 l5 = l6
62 at 4:137 l5 = l3.p
63 at 4:135 l6 = l5.q
64 at 4:135 l6 = op l6
65 at 4:135 l5.q = l6
66 at 4:135 l5 = l6
67 at 4:144 l5 = l3.k
68 at 4:144 l5 = op l5
69 at 4:144 l6 = op l5
70 at 4:144 l3.k = l6
71 at 4:158 l5 = l3.p
72 at 4:158 l5 = op l5
73 at 4:158 l6 = op l5
74 at 4:158 l3.p = l6
75 at 4:166 l6 = l3.p
76 at 4:166 l6 = op l6
77 at 4:166 l3.p = l6
78 at 4:158 l5 = op l5 l6
79 at 4:154 l2 = l5
80 at 1:0 l5 = literal undefined
81 at 1:0 return l5
82 at 3:58 l0 = cell 1
83 at 3:51 return l0
84 at 3:36 l0 = literal undefined
85 at 3:36 return l0
function 0 in - at 1:0 sites 0..81 locals 8 -
function 1 in 0 at 3:36 sites 82..85 locals 1 g
cells of 0 0
file 0 index.js body 0 module cell 0
",
);
