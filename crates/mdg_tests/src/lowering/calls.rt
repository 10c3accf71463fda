// A call of a property passes its base as the receiver.
pub const CALLS: (&str, &str) = (
    "\
'use strict';
var a = {}, f = function () {};
f(); f(1, a); a.m(); a.m(1, a.p); a[f](2); a['k'](3); f()(); f().m(); (f)(1); (a.m)(1); new Error('x', a); eval('1'); console.log(a); require('fs').readFile('x', f);
",
    "\
0 at 1:0 l4 = object
1 at 1:0 l5 = object
2 at 1:0 l4.exports = l5
3 at 1:0 cell 0 = l4
4 at 1:0 l0 = l4
5 at 1:0 l1 = l5
6 at 2:22 l4 = object
7 at 2:14 l2 = l4
8 at 2:30 l4 = function 1
9 at 2:14 l3 = l4
10 at 3:46 l4 = l3
11 at 3:46 l4 = call l4 with
12 at 3:46 land
13 at 3:51 l4 = l3
14 at 3:53 l5 = literal 1
15 at 3:56 l6 = l2
16 at 3:51 l4 = call l4 with l5 l6
17 at 3:51 land
18 at 3:60 l4 = l2.m
19 at 3:60 l4 = call l4 on l2 with
20 at 3:60 land
21 at 3:67 l4 = l2.m
22 at 3:71 l5 = literal 1
23 at 3:74 l6 = l2.p
24 at 3:67 l4 = call l4 on l2 with l5 l6
25 at 3:67 land
26 at 3:82 l4 = l3
27 at 3:80 l4 = op l4
28 at 3:80 l4 = l2[l4]
29 at 3:85 l5 = literal 2
30 at 3:80 l4 = call l4 on l2 with l5
31 at 3:80 land
32 at 3:89 l4 = l2.k
33 at 3:96 l5 = literal 3
34 at 3:89 l4 = call l4 on l2 with l5
35 at 3:89 land
36 at 3:100 l4 = l3
37 at 3:100 l4 = call l4 with
38 at 3:100 land
39 at 3:100 l4 = call l4 with
40 at 3:100 land
41 at 3:107 l4 = l3
42 at 3:107 l4 = call l4 with
43 at 3:107 land
44 at 3:107 l5 = l4.m
45 at 3:107 l4 = call l5 on l4 with
46 at 3:107 land
47 at 3:117 l4 = l3
48 at 3:120 l5 = literal 1
49 at 3:116 l4 = call l4 with l5
50 at 3:116 land
51 at 3:124 l4 = l2.m
52 at 3:130 l5 = literal 1
53 at 3:124 l4 = call l4 on l2 with l5
54 at 3:124 land
55 at 3:138 l4 = shared 0
56 at 3:144 l5 = literal x
57 at 3:149 l6 = l2
58 at 3:134 l4 = call l4 with l5 l6
59 at 3:134 land
60 at 3:153 l4 = shared 1
61 at 3:158 l5 = literal 1
62 at 3:153 l4 = call l4 with l5
63 at 3:153 land
64 at 3:164 l4 = shared 2
65 at 3:164 l5 = l4.log
66 at 3:176 l6 = l2
67 at 3:164 l4 = call l5 on l4 with l6
68 at 3:164 land
69 at 3:180 l4 = shared 7
70 at 3:180 l5 = l4.readFile
71 at 3:203 l6 = literal x
72 at 3:208 l7 = l3
73 at 3:180 l4 = call l5 on l4 with l6 l7
74 at 3:180 land
75 at 1:0 l4 = literal undefined
76 at 1:0 return l4
77 at 2:30 l0 = literal undefined
78 at 2:30 return l0
function 0 in - at 1:0 sites 0..76 locals 8 -
function 1 in 0 at 2:30 sites 77..78 locals 1 -
cells of 0
file 0 index.js body 0 module cell 0
shared 0 global Error quiet of 0
shared 1 global eval sink 0 of 1
shared 2 global console active of 2
shared 3 global console.log quiet of 2
shared 4 global console.info quiet of 2
shared 5 global console.warn quiet of 2
shared 6 global console.error quiet of 2
shared 7 module fs active of 7
shared 8 module fs.readFile sink 0 of 7
shared 9 module fs.readFileSync sink 0 of 7
shared 10 module fs.writeFile sink 0 of 7
shared 11 module fs.writeFileSync sink 0 of 7
shared 12 module fs.unlink sink 0 of 7
shared 13 module fs.unlinkSync sink 0 of 7
",
);

// `new` calls without a receiver, with or without arguments.
pub const CREATED: (&str, &str) = (
    "\
'use strict';
var a, b;
a.b.c[b].if(1)(2).x;
new Error;
new Error('x');
new Error('x').message;
new Map().get(a)[b];
new Date(a)
",
    "\
0 at 1:0 l4 = object
1 at 1:0 l5 = object
2 at 1:0 l4.exports = l5
3 at 1:0 cell 0 = l4
4 at 1:0 l0 = l4
5 at 1:0 l1 = l5
6 at 3:24 l4 = l2.b
7 at 3:24 l4 = l4.c
8 at 3:30 l5 = l3
9 at 3:24 l5 = op l5
10 at 3:24 l4 = l4[l5]
11 at 3:24 l5 = l4.if
12 at 3:36 l6 = literal 1
13 at 3:24 l4 = call l5 on l4 with l6
14 at 3:24 land
15 at 3:39 l5 = literal 2
16 at 3:24 l4 = call l4 with l5
17 at 3:24 land
18 at 3:24 l4 = l4.x
19 at 4:49 l4 = shared 0
20 at 4:45 l4 = call l4 with
21 at 4:45 land
22 at 5:60 l4 = shared 0
23 at 5:66 l5 = literal x
24 at 5:56 l4 = call l4 with l5
25 at 5:56 land
26 at 6:76 l4 = shared 0
27 at 6:82 l5 = literal x
28 at 6:72 l4 = call l4 with l5
29 at 6:72 land
30 at 6:72 l4 = l4.message
31 at 7:100 l4 = shared 1
32 at 7:96 l4 = call l4 with
33 at 7:96 land
34 at 7:96 l5 = l4.get
35 at 7:110 l6 = l2
36 at 7:96 l4 = call l5 on l4 with l6
37 at 7:96 land
38 at 7:113 l5 = l3
39 at 7:96 l5 = op l5
40 at 7:96 l4 = l4[l5]
41 at 8:121 l4 = shared 2
42 at 8:126 l5 = l2
43 at 8:117 l4 = call l4 with l5
44 at 8:117 land
45 at 1:0 l4 = literal undefined
46 at 1:0 return l4
function 0 in - at 1:0 sites 0..46 locals 7 -
cells of 0
file 0 index.js body 0 module cell 0
shared 0 global Error quiet of 0
shared 1 global Map active of 1
shared 2 global Date quiet of 2
",
);

// A module or a global has a row for each member that the profile lists.
pub const SHARED: (&str, &str) = (
    "\
'use strict';
var cp = require('child_process');
var x = require('./x.json'), y = require('node:path'), z = require('left-pad'), w = require('child_process');
cp.exec('ls'); y.join('a', 'b'); z('c'); eval('x'); Object.keys(x); JSON.stringify(w); Math.max(1, 2); setTimeout(function () {}, 1);
",
    "\
0 at 1:0 l7 = object
1 at 1:0 l8 = object
2 at 1:0 l7.exports = l8
3 at 1:0 cell 0 = l7
4 at 1:0 l0 = l7
5 at 1:0 l1 = l8
6 at 2:23 l7 = shared 0
7 at 2:14 l2 = l7
8 at 3:57 l7 = shared 7
9 at 3:49 l3 = l7
10 at 3:82 l7 = shared 8
11 at 3:49 l4 = l7
12 at 3:108 l7 = shared 16
13 at 3:49 l5 = l7
14 at 3:133 l7 = shared 0
15 at 3:49 l6 = l7
16 at 4:159 l7 = l2.exec
17 at 4:167 l8 = literal ls
18 at 4:159 l7 = call l7 on l2 with l8
19 at 4:159 land
20 at 4:174 l7 = l4.join
21 at 4:181 l8 = literal a
22 at 4:186 l9 = literal b
23 at 4:174 l7 = call l7 on l4 with l8 l9
24 at 4:174 land
25 at 4:192 l7 = l5
26 at 4:194 l8 = literal c
27 at 4:192 l7 = call l7 with l8
28 at 4:192 land
29 at 4:200 l7 = shared 17
30 at 4:205 l8 = literal x
31 at 4:200 l7 = call l7 with l8
32 at 4:200 land
33 at 4:211 l7 = shared 18
34 at 4:211 l8 = l7.keys
35 at 4:223 l9 = l3
36 at 4:211 l7 = call l8 on l7 with l9
37 at 4:211 land
38 at 4:227 l7 = shared 28
39 at 4:227 l8 = l7.stringify
40 at 4:242 l9 = l6
41 at 4:227 l7 = call l8 on l7 with l9
42 at 4:227 land
43 at 4:246 l7 = shared 31
44 at 4:246 l8 = l7.max
45 at 4:255 l9 = literal 1
46 at 4:258 l10 = literal 2
47 at 4:246 l7 = call l8 on l7 with l9 l10
48 at 4:246 land
49 at 4:262 l7 = shared 41
50 at 4:273 l8 = function 1
51 at 4:289 l9 = literal 1
52 at 4:262 l7 = call l7 with l8 l9
53 at 4:262 land
54 at 1:0 l7 = literal undefined
55 at 1:0 return l7
56 at 4:273 l0 = literal undefined
57 at 4:273 return l0
function 0 in - at 1:0 sites 0..55 locals 11 -
function 1 in 0 at 4:273 sites 56..57 locals 1 -
cells of 0
file 0 index.js body 0 module cell 0
shared 0 module child_process active of 0
shared 1 module child_process.exec sink 0 of 0
shared 2 module child_process.execSync sink 0 of 0
shared 3 module child_process.execFile sink 0 1 of 0
shared 4 module child_process.execFileSync sink 0 1 of 0
shared 5 module child_process.spawn sink 0 1 of 0
shared 6 module child_process.spawnSync sink 0 1 of 0
shared 7 module ./x.json active of 7
shared 8 module path active of 8
shared 9 module path.join quiet of 8
shared 10 module path.resolve quiet of 8
shared 11 module path.basename quiet of 8
shared 12 module path.dirname quiet of 8
shared 13 module path.extname quiet of 8
shared 14 module path.normalize quiet of 8
shared 15 module path.relative quiet of 8
shared 16 module left-pad active of 16
shared 17 global eval sink 0 of 17
shared 18 global Object active of 18
shared 19 global Object.keys quiet of 18
shared 20 global Object.freeze quiet of 18
shared 21 global Object.isFrozen quiet of 18
shared 22 global Object.getOwnPropertyNames quiet of 18
shared 23 global Object.getPrototypeOf quiet of 18
shared 24 global Object.create active of 18
shared 25 global Object.assign active of 18
shared 26 global Object.defineProperty active of 18
shared 27 global Object.defineProperties active of 18
shared 28 global JSON active of 28
shared 29 global JSON.parse active of 28
shared 30 global JSON.stringify active of 28
shared 31 global Math active of 31
shared 32 global Math.abs quiet of 31
shared 33 global Math.ceil quiet of 31
shared 34 global Math.floor quiet of 31
shared 35 global Math.max quiet of 31
shared 36 global Math.min quiet of 31
shared 37 global Math.pow quiet of 31
shared 38 global Math.random quiet of 31
shared 39 global Math.round quiet of 31
shared 40 global Math.sqrt quiet of 31
shared 41 global setTimeout active of 41
",
);

// The files ask for one another: each request loads a file and then reads its module object.
pub const ASKING_FILES: [(&str, &str); 2] = [
    (
        "index.js",
        "\
'use strict';
exports.sh = require('child_process').exec;
module.exports = { run: require('./h').run };
",
    ),
    (
        "h/index.js",
        "\
'use strict';
var up = require('../index');
exports.run = function (x) { up.sh(x); };
",
    ),
];

pub const ASKING_STATEMENTS: &str = "\
0 at 1:0 l2 = object
1 at 1:0 l3 = object
2 at 1:0 l2.exports = l3
3 at 1:0 cell 0 = l2
4 at 1:0 l0 = l2
5 at 1:0 l1 = l3
6 at 2:27 l2 = shared 0
7 at 2:27 l2 = l2.exec
8 at 2:14 l1.sh = l2
9 at 3:75 l2 = object
10 at 3:82 load 1
11 at 3:82 land
12 at 3:82 l3 = cell 1
13 at 3:82 l3 = l3.exports
14 at 3:82 l3 = l3.run
15 at 3:75 l2.run = l3
16 at 3:58 l0.exports = l2
17 at 1:0 l2 = literal undefined
18 at 1:0 return l2
19 at file 1 1:0 l2 = object
20 at file 1 1:0 l3 = object
21 at file 1 1:0 l2.exports = l3
22 at file 1 1:0 cell 1 = l2
23 at file 1 1:0 l0 = l2
24 at file 1 1:0 l1 = l3
25 at file 1 2:23 load 0
26 at file 1 2:23 land
27 at file 1 2:23 l2 = cell 0
28 at file 1 2:23 l2 = l2.exports
29 at file 1 2:14 cell 2 = l2
30 at file 1 3:58 l2 = function 2
31 at file 1 3:44 l1.run = l2
32 at file 1 1:0 l2 = literal undefined
33 at file 1 1:0 return l2
34 at file 1 3:73 l1 = cell 2
35 at file 1 3:73 l2 = l1.sh
36 at file 1 3:79 l3 = l0
37 at file 1 3:73 l1 = call l2 on l1 with l3
38 at file 1 3:73 land
39 at file 1 3:58 l1 = literal undefined
40 at file 1 3:58 return l1
function 0 in - at 1:0 sites 0..18 locals 4 -
function 1 in - at file 1 1:0 sites 19..33 locals 4 -
function 2 in 1 at file 1 3:58 sites 34..40 locals 4 - x
cells of 0 1 1
file 0 index.js body 0 module cell 0
file 1 h/index.js body 1 module cell 1
shared 0 module child_process active of 0
shared 1 module child_process.exec sink 0 of 0
shared 2 module child_process.execSync sink 0 of 0
shared 3 module child_process.execFile sink 0 1 of 0
shared 4 module child_process.execFileSync sink 0 1 of 0
shared 5 module child_process.spawn sink 0 1 of 0
shared 6 module child_process.spawnSync sink 0 1 of 0
";
