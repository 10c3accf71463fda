// A fixed key is the name of a property. Any other key is computed.
pub const MEMBERS: (&str, &str) = (
    "\
'use strict';
var a = {}, b = [];
a.p; a['q']; a[0]; a[b]; a[b + 'x']; (a).r; a.p.q.r; b[a.p];
a.p = 1; a[b] = 2; a['k'] = 3; a.p.q = 4; (a.p)[b] = 5;
",
    "\
0 at 1:0 l4 = object
1 at 1:0 l5 = object
2 at 1:0 l4.exports = l5
3 at 1:0 cell 0 = l4
4 at 1:0 l0 = l4
5 at 1:0 l1 = l5
6 at 2:22 l4 = object
7 at 2:14 l2 = l4
8 at 2:30 l4 = object
9 at 2:14 l3 = l4
10 at 3:34 l4 = l2.p
11 at 3:39 l4 = l2.q
12 at 3:47 l4 = l2.0
13 at 3:55 l4 = l3
14 at 3:53 l4 = op l4
15 at 3:53 l4 = l2[l4]
16 at 3:61 l4 = l3
17 at 3:65 l5 = literal x
18 at 3:61 l4 = op l4 l5
19 at 3:59 l4 = op l4
20 at 3:59 l4 = l2[l4]
21 at 3:71 l4 = l2.r
22 at 3:78 l4 = l2.p
23 at 3:78 l4 = l4.q
24 at 3:78 l4 = l4.r
25 at 3:89 l4 = l2.p
26 at 3:87 l4 = op l4
27 at 3:87 l4 = l3[l4]
28 at 4:101 l4 = literal 1
29 at 4:95 l2.p = l4
30 at 4:106 l4 = l3
31 at 4:104 l4 = op l4
32 at 4:111 l5 = literal 2
33 at 4:104 l2[l4] = l5
34 at 4:104 l4 = l5
35 at 4:123 l4 = literal 3
36 at 4:114 l2.k = l4
37 at 4:126 l4 = l2.p
38 at 4:134 l5 = literal 4
39 at 4:126 l4.q = l5
40 at 4:126 l4 = l5
41 at 4:138 l4 = l2.p
42 at 4:143 l5 = l3
43 at 4:137 l5 = op l5
44 at 4:148 l6 = literal 5
45 at 4:137 l4[l5] = l6
46 at 4:137 l4 = l6
47 at 1:0 l4 = literal undefined
48 at 1:0 return l4
function 0 in - at 1:0 sites 0..48 locals 7 -
cells of 0
file 0 index.js body 0 module cell 0
",
);

// An initialiser sets its properties one after another.
pub const INITIALISERS: (&str, &str) = (
    "\
'use strict';
var a = { p: 1, 'q r': a, 3: [], if: { s: 's' }, 17: 0, '08': 1 };
var b = [1, a, [2, 3], {}];
a[16]; a[15]; a['16']; a[100] = 1;
",
    "\
0 at 1:0 l4 = object
1 at 1:0 l5 = object
2 at 1:0 l4.exports = l5
3 at 1:0 cell 0 = l4
4 at 1:0 l0 = l4
5 at 1:0 l1 = l5
6 at 2:22 l4 = object
7 at 2:27 l5 = literal 1
8 at 2:22 l4.p = l5
9 at 2:37 l5 = l2
10 at 2:22 l4.q r = l5
11 at 2:43 l5 = object
12 at 2:22 l4.3 = l5
13 at 2:51 l5 = object
14 at 2:56 l6 = literal s
15 at 2:51 l5.s = l6
16 at 2:22 l4.if = l5
17 at 2:67 l5 = literal 0
18 at 2:22 l4.17 = l5
19 at 2:76 l5 = literal 1
20 at 2:22 l4.08 = l5
21 at 2:14 l2 = l4
22 at 3:89 l4 = object
23 at 3:90 l5 = literal 1
24 at 3:89 l4.0 = l5
25 at 3:93 l5 = l2
26 at 3:89 l4.1 = l5
27 at 3:96 l5 = object
28 at 3:97 l6 = literal 2
29 at 3:96 l5.0 = l6
30 at 3:100 l6 = literal 3
31 at 3:96 l5.1 = l6
32 at 3:89 l4.2 = l5
33 at 3:104 l5 = object
34 at 3:89 l4.3 = l5
35 at 3:81 l3 = l4
36 at 4:109 l4 = l2.16
37 at 4:116 l4 = l2.15
38 at 4:123 l4 = l2.16
39 at 4:141 l4 = literal 1
40 at 4:132 l2.100 = l4
41 at 1:0 l4 = literal undefined
42 at 1:0 return l4
function 0 in - at 1:0 sites 0..42 locals 7 -
cells of 0
file 0 index.js body 0 module cell 0
",
);

// A base or a key that a later part of its expression assigns is kept.
pub const KEPT_BASE: (&str, &str) = (
    "\
'use strict';
var a = {}, b = 'k';
a[b = 'x'];
a[a = b];
a.p = a = {};
a[(a = {}, b)] = 1;
a.p += (a = {}).q;
",
    "\
0 at 1:0 l4 = object
1 at 1:0 l5 = object
2 at 1:0 l4.exports = l5
3 at 1:0 cell 0 = l4
4 at 1:0 l0 = l4
5 at 1:0 l1 = l5
6 at 2:22 l4 = object
7 at 2:14 l2 = l4
8 at 2:30 l4 = literal k
9 at 2:14 l3 = l4
10 at 3:41 l4 = literal x
11 at 3:37 l3 = l4
12 at 3:35 l4 = op l4
13 at 3:35 l4 = l2[l4]
14 at 4:47 l4 = l2
15 at 4:53 l5 = l3
16 at 4:49 l2 = l5
17 at 4:47 l5 = op l5
18 at 4:47 l4 = l4[l5]
19 at 5:57 l4 = l2
20 at 5:67 l5 = object
21 at 5:63 l2 = l5
22 at 5:57 l4.p = l5
23 at 5:57 l4 = l5
24 at 6:71 l4 = l2
25 at 6:78 l5 = object
26 at 6:74 l2 = l5
27 at 6:82 l5 = l3
28 at 6:71 l5 = op l5
29 at 6:88 l6 = literal 1
30 at 6:71 l4[l5] = l6
31 at 6:71 l4 = l6
32 at 7:91 l4 = l2
33 at 7:91 l5 = l4.p
34 at 7:103 l6 = object
35 at 7:99 l2 = l6
36 at 7:98 l6 = l6.q
37 at 7:91 l5 = op l5 l6
38 at 7:91 l4.p = l5
39 at 7:91 l4 = l5
40 at 1:0 l4 = literal undefined
41 at 1:0 return l4
function 0 in - at 1:0 sites 0..41 locals 7 -
cells of 0
file 0 index.js body 0 module cell 0
",
);

// A deleted property may become undefined; of other operands `delete` only reads.
pub const DELETED: (&str, &str) = (
    "\
'use strict';
var a = {}, k = 'x';
delete a.p; delete a[k]; delete a.p.q; delete f(); function f() {}
",
    "\
0 at 1:0 l5 = object
1 at 1:0 l6 = object
2 at 1:0 l5.exports = l6
3 at 1:0 cell 0 = l5
4 at 1:0 l0 = l5
5 at 1:0 l1 = l6
6 at 3:86 l5 = function 1
7 at 3:86 l4 = l5
8 at 2:22 l5 = object
9 at 2:14 l2 = l5
10 at 2:30 l5 = literal x
11 at 2:14 l3 = l5
12 at 3:35 branch 13 15
13 at 3:35 l5 = literal undefined
14 at 3:35 l2.p = l5
15 at 3:35 l5 = literal -
16 at 3:56 l5 = l3
17 at 3:47 l5 = op l5
18 at 3:47 branch 19 21
19 at 3:47 l6 = literal undefined
20 at 3:47 l2[l5] = l6
21 at 3:47 l5 = literal -
22 at 3:67 l5 = l2.p
23 at 3:60 branch 24 26
24 at 3:60 l6 = literal undefined
25 at 3:60 l5.q = l6
26 at 3:60 l5 = literal -
27 at 3:81 l5 = l4
28 at 3:81 l5 = call l5 with
29 at 3:81 land
30 at 3:74 l5 = literal -
31 at 1:0 l5 = literal undefined
32 at 1:0 return l5
33 at 3:86 l0 = literal undefined
34 at 3:86 return l0
function 0 in - at 1:0 sites 0..32 locals 7 -
function 1 in 0 at 3:86 sites 33..34 locals 1 f
cells of 0
file 0 index.js body 0 module cell 0
",
);
