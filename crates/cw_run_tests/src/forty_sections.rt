//! A web of forty sections and what its run tells, as tools/second_way.py makes them.

/// The web.
pub(crate) const WEB: &[u8] = b"@* Part 1. It has |x| and a table, |table1|.
@^part@>
@d limit1 1
@ Section 2 adds.
@<Step 2.@>=
if (a>2) { b+=2; c(2,a); } else while (b) b--;
@ @c int count3=b+c, *d;
@ @c typedef struct node4{int x;} pair4; pair4 y;
@ See @<Step 2.@>.
@c @<Step 2.@>; @<Step 2.@>;
@ Section 6 adds.
@<Step 6.@>=
if (a>6) { b+=6; c(6,a); } else while (b) b--;
@ @c int count7=b+c, *d;
@ @c typedef struct node8{int x;} pair8; pair8 y;
@ @c if(a)b;else if(c){d;}else e; /* b |x /* c |y| */| */
@ See @<Step 6.@>.
@c @<Step 2.@>; @<Step 2.@>;
@* Part 11. It has |x| and a table, |table11|.
@^part@>
@d limit11 11
@ @c typedef struct node12{int x;} pair12; pair12 y;
@ @c if(a)b;else if(c){d;}else e; /* b |x /* c |y| */| */
@ Section 14 adds.
@<Step 14.@>=
if (a>14) { b+=14; c(14,a); } else while (b) b--;
@ See @<Step 14.@>.
@c @<Step 14.@>; @<Step 2.@>;
@ @c typedef struct node16{int x;} pair16; pair16 y;
@ @c if(a)b;else if(c){d;}else e; /* b |x /* c |y| */| */
@ Section 18 adds.
@<Step 18.@>=
if (a>18) { b+=18; c(18,a); } else while (b) b--;
@ @c int count19=b+c, *d;
@ See @<Step 18.@>.
@c @<Step 14.@>; @<Step 2.@>;
@* Part 21. It has |x| and a table, |table21|.
@^part@>
@d limit21 21
@ Section 22 adds.
@<Step 22.@>=
if (a>22) { b+=22; c(22,a); } else while (b) b--;
@ @c int count23=b+c, *d;
@ @c typedef struct node24{int x;} pair24; pair24 y;
@ See @<Step 22.@>.
@c @<Step 22.@>; @<Step 2.@>;
@ Section 26 adds.
@<Step 26.@>=
if (a>26) { b+=26; c(26,a); } else while (b) b--;
@ @c int count27=b+c, *d;
@ @c typedef struct node28{int x;} pair28; pair28 y;
@ @c if(a)b;else if(c){d;}else e; /* b |x /* c |y| */| */
@ See @<Step 26.@>.
@c @<Step 22.@>; @<Step 2.@>;
@* Part 31. It has |x| and a table, |table31|.
@^part@>
@d limit31 31
@ @c typedef struct node32{int x;} pair32; pair32 y;
@ @c if(a)b;else if(c){d;}else e; /* b |x /* c |y| */| */
@ Section 34 adds.
@<Step 34.@>=
if (a>34) { b+=34; c(34,a); } else while (b) b--;
@ See @<Step 34.@>.
@c @<Step 34.@>; @<Step 2.@>;
@ @c typedef struct node36{int x;} pair36; pair36 y;
@ @c if(a)b;else if(c){d;}else e; /* b |x /* c |y| */| */
@ Section 38 adds.
@<Step 38.@>=
if (a>38) { b+=38; c(38,a); } else while (b) b--;
@ @c int count39=b+c, *d;
@ See @<Step 38.@>.
@c @<Step 34.@>; @<Step 2.@>;
";

/// What its run with the words `-e +s foo` tells.
pub(crate) const TOLD: &[u8] = b"[term]This is CWEAVE (profile 4)
! Never used: <Step 6.>
! Never used: <Step 18.>
! Never used: <Step 26.>
! Never used: <Step 38.>
Writing the output file...
[tex] is foo.tex
[tex]\\input cwebmac
\\N{0}{1}Part 1. It has \\|x and a table, \\\\{table1}.
\\Y\\B\\4\\D$\\\\{limit1}$\\5\\T{1}\\par
\\fi

\\M{2}Section 2 adds.
\\Y\\B\\X2:Step 2.\\X${}\\E{}$\\6
\\&{if} ${}(\\|a>\\T{2}){}$\\5${}\\{\\1{}$\\6
${}\\|b\\MRL{+{\\K}}\\T{2};{}$\\6
${}\\|c(\\T{2},\\39\\|a);{}$\\6
\\4${}\\}\\2{}$\\6
\\&{else}\\1\\6
\\&{while} (\\|b)\\1\\5${}\\|b\\MM;\\2{}$\\2\\par
\\Q5.
\\Us5, 10, 15, 20, 25, 30, 35\\ETs40.
\\fi

\\M{3}
\\Y\\B\\&{int} \\\\{count3}${}\\K\\|b+\\|c,{}$ ${}{*}\\|d;$\\par
\\fi

\\M{4}
\\Y\\B\\&{typedef} \\&{struct} \\&{node4} ${}\\{\\1{}$\\6
\\&{int} \\|x;\\2\\6
${}\\}{}$ \\&{pair4};\\6
\\&{pair4} \\|y;\\par
\\fi

\\M{5}See \\X2:Step 2.\\X.
\\Y\\B\\X2:Step 2.\\X;\\6
\\X2:Step 2.\\X;\\par
\\fi

\\M{6}Section 6 adds.
\\Y\\B\\X6:Step 6.\\X${}\\E{}$\\6
\\&{if} ${}(\\|a>\\T{6}){}$\\5${}\\{\\1{}$\\6
${}\\|b\\MRL{+{\\K}}\\T{6};{}$\\6
${}\\|c(\\T{6},\\39\\|a);{}$\\6
\\4${}\\}\\2{}$\\6
\\&{else}\\1\\6
\\&{while} (\\|b)\\1\\5${}\\|b\\MM;\\2{}$\\2\\par
\\Q10.
\\fi

\\M{7}
\\Y\\B\\&{int} \\\\{count7}${}\\K\\|b+\\|c,{}$ ${}{*}\\|d;$\\par
\\fi

\\M{8}
\\Y\\B\\&{typedef} \\&{struct} \\&{node8} ${}\\{\\1{}$\\6
\\&{int} \\|x;\\2\\6
${}\\}{}$ \\&{pair8};\\6
\\&{pair8} \\|y;\\par
\\fi

\\M{9}
\\Y\\B\\&{if} (\\|a)\\1\\5\\|b;\\2\\6
\\&{else} \\&{if} (\\|c)\\5${}\\{\\1{}$\\6
\\|d;\\6
\\4${}\\}\\2{}$\\6
\\&{else}\\1\\5\\|e;\\2\\C{ b \\|x\\C{ c \\|y } }\\par
\\fi

\\M{10}See \\X6:Step 6.\\X.
\\Y\\B\\X2:Step 2.\\X;\\6
\\X2:Step 2.\\X;\\par
\\fi

\\N{0}{11}Part 11. It has \\|x and a table, \\\\{table11}.
\\Y\\B\\4\\D$\\\\{limit11}$\\5\\T{11}\\par
\\fi

\\M{12}
\\Y\\B\\&{typedef} \\&{struct} \\&{node12} ${}\\{\\1{}$\\6
\\&{int} \\|x;\\2\\6
${}\\}{}$ \\&{pair12};\\6
\\&{pair12} \\|y;\\par
\\fi

\\M{13}
\\Y\\B\\&{if} (\\|a)\\1\\5\\|b;\\2\\6
\\&{else} \\&{if} (\\|c)\\5${}\\{\\1{}$\\6
\\|d;\\6
\\4${}\\}\\2{}$\\6
\\&{else}\\1\\5\\|e;\\2\\C{ b \\|x\\C{ c \\|y } }\\par
\\fi

\\M{14}Section 14 adds.
\\Y\\B\\X14:Step 14.\\X${}\\E{}$\\6
\\&{if} ${}(\\|a>\\T{14}){}$\\5${}\\{\\1{}$\\6
${}\\|b\\MRL{+{\\K}}\\T{14};{}$\\6
${}\\|c(\\T{14},\\39\\|a);{}$\\6
\\4${}\\}\\2{}$\\6
\\&{else}\\1\\6
\\&{while} (\\|b)\\1\\5${}\\|b\\MM;\\2{}$\\2\\par
\\Q15.
\\Us15\\ET20.
\\fi

\\M{15}See \\X14:Step 14.\\X.
\\Y\\B\\X14:Step 14.\\X;\\6
\\X2:Step 2.\\X;\\par
\\fi

\\M{16}
\\Y\\B\\&{typedef} \\&{struct} \\&{node16} ${}\\{\\1{}$\\6
\\&{int} \\|x;\\2\\6
${}\\}{}$ \\&{pair16};\\6
\\&{pair16} \\|y;\\par
\\fi

\\M{17}
\\Y\\B\\&{if} (\\|a)\\1\\5\\|b;\\2\\6
\\&{else} \\&{if} (\\|c)\\5${}\\{\\1{}$\\6
\\|d;\\6
\\4${}\\}\\2{}$\\6
\\&{else}\\1\\5\\|e;\\2\\C{ b \\|x\\C{ c \\|y } }\\par
\\fi

\\M{18}Section 18 adds.
\\Y\\B\\X18:Step 18.\\X${}\\E{}$\\6
\\&{if} ${}(\\|a>\\T{18}){}$\\5${}\\{\\1{}$\\6
${}\\|b\\MRL{+{\\K}}\\T{18};{}$\\6
${}\\|c(\\T{18},\\39\\|a);{}$\\6
\\4${}\\}\\2{}$\\6
\\&{else}\\1\\6
\\&{while} (\\|b)\\1\\5${}\\|b\\MM;\\2{}$\\2\\par
\\Q20.
\\fi

\\M{19}
\\Y\\B\\&{int} \\\\{count19}${}\\K\\|b+\\|c,{}$ ${}{*}\\|d;$\\par
\\fi

\\M{20}See \\X18:Step 18.\\X.
\\Y\\B\\X14:Step 14.\\X;\\6
\\X2:Step 2.\\X;\\par
\\fi

\\N{0}{21}Part 21. It has \\|x and a table, \\\\{table21}.
\\Y\\B\\4\\D$\\\\{limit21}$\\5\\T{21}\\par
\\fi

\\M{22}Section 22 adds.
\\Y\\B\\X22:Step 22.\\X${}\\E{}$\\6
\\&{if} ${}(\\|a>\\T{22}){}$\\5${}\\{\\1{}$\\6
${}\\|b\\MRL{+{\\K}}\\T{22};{}$\\6
${}\\|c(\\T{22},\\39\\|a);{}$\\6
\\4${}\\}\\2{}$\\6
\\&{else}\\1\\6
\\&{while} (\\|b)\\1\\5${}\\|b\\MM;\\2{}$\\2\\par
\\Q25.
\\Us25\\ET30.
\\fi

\\M{23}
\\Y\\B\\&{int} \\\\{count23}${}\\K\\|b+\\|c,{}$ ${}{*}\\|d;$\\par
\\fi

\\M{24}
\\Y\\B\\&{typedef} \\&{struct} \\&{node24} ${}\\{\\1{}$\\6
\\&{int} \\|x;\\2\\6
${}\\}{}$ \\&{pair24};\\6
\\&{pair24} \\|y;\\par
\\fi

\\M{25}See \\X22:Step 22.\\X.
\\Y\\B\\X22:Step 22.\\X;\\6
\\X2:Step 2.\\X;\\par
\\fi

\\M{26}Section 26 adds.
\\Y\\B\\X26:Step 26.\\X${}\\E{}$\\6
\\&{if} ${}(\\|a>\\T{26}){}$\\5${}\\{\\1{}$\\6
${}\\|b\\MRL{+{\\K}}\\T{26};{}$\\6
${}\\|c(\\T{26},\\39\\|a);{}$\\6
\\4${}\\}\\2{}$\\6
\\&{else}\\1\\6
\\&{while} (\\|b)\\1\\5${}\\|b\\MM;\\2{}$\\2\\par
\\Q30.
\\fi

\\M{27}
\\Y\\B\\&{int} \\\\{count27}${}\\K\\|b+\\|c,{}$ ${}{*}\\|d;$\\par
\\fi

\\M{28}
\\Y\\B\\&{typedef} \\&{struct} \\&{node28} ${}\\{\\1{}$\\6
\\&{int} \\|x;\\2\\6
${}\\}{}$ \\&{pair28};\\6
\\&{pair28} \\|y;\\par
\\fi

\\M{29}
\\Y\\B\\&{if} (\\|a)\\1\\5\\|b;\\2\\6
\\&{else} \\&{if} (\\|c)\\5${}\\{\\1{}$\\6
\\|d;\\6
\\4${}\\}\\2{}$\\6
\\&{else}\\1\\5\\|e;\\2\\C{ b \\|x\\C{ c \\|y } }\\par
\\fi

\\M{30}See \\X26:Step 26.\\X.
\\Y\\B\\X22:Step 22.\\X;\\6
\\X2:Step 2.\\X;\\par
\\fi

\\N{0}{31}Part 31. It has \\|x and a table, \\\\{table31}.
\\Y\\B\\4\\D$\\\\{limit31}$\\5\\T{31}\\par
\\fi

\\M{32}
\\Y\\B\\&{typedef} \\&{struct} \\&{node32} ${}\\{\\1{}$\\6
\\&{int} \\|x;\\2\\6
${}\\}{}$ \\&{pair32};\\6
\\&{pair32} \\|y;\\par
\\fi

\\M{33}
\\Y\\B\\&{if} (\\|a)\\1\\5\\|b;\\2\\6
\\&{else} \\&{if} (\\|c)\\5${}\\{\\1{}$\\6
\\|d;\\6
\\4${}\\}\\2{}$\\6
\\&{else}\\1\\5\\|e;\\2\\C{ b \\|x\\C{ c \\|y } }\\par
\\fi

\\M{34}Section 34 adds.
\\Y\\B\\X34:Step 34.\\X${}\\E{}$\\6
\\&{if} ${}(\\|a>\\T{34}){}$\\5${}\\{\\1{}$\\6
${}\\|b\\MRL{+{\\K}}\\T{34};{}$\\6
${}\\|c(\\T{34},\\39\\|a);{}$\\6
\\4${}\\}\\2{}$\\6
\\&{else}\\1\\6
\\&{while} (\\|b)\\1\\5${}\\|b\\MM;\\2{}$\\2\\par
\\Q35.
\\Us35\\ET40.
\\fi

\\M{35}See \\X34:Step 34.\\X.
\\Y\\B\\X34:Step 34.\\X;\\6
\\X2:Step 2.\\X;\\par
\\fi

\\M{36}
\\Y\\B\\&{typedef} \\&{struct} \\&{node36} ${}\\{\\1{}$\\6
\\&{int} \\|x;\\2\\6
${}\\}{}$ \\&{pair36};\\6
\\&{pair36} \\|y;\\par
\\fi

\\M{37}
\\Y\\B\\&{if} (\\|a)\\1\\5\\|b;\\2\\6
\\&{else} \\&{if} (\\|c)\\5${}\\{\\1{}$\\6
\\|d;\\6
\\4${}\\}\\2{}$\\6
\\&{else}\\1\\5\\|e;\\2\\C{ b \\|x\\C{ c \\|y } }\\par
\\fi

\\M{38}Section 38 adds.
\\Y\\B\\X38:Step 38.\\X${}\\E{}$\\6
\\&{if} ${}(\\|a>\\T{38}){}$\\5${}\\{\\1{}$\\6
${}\\|b\\MRL{+{\\K}}\\T{38};{}$\\6
${}\\|c(\\T{38},\\39\\|a);{}$\\6
\\4${}\\}\\2{}$\\6
\\&{else}\\1\\6
\\&{while} (\\|b)\\1\\5${}\\|b\\MM;\\2{}$\\2\\par
\\Q40.
\\fi

\\M{39}
\\Y\\B\\&{int} \\\\{count39}${}\\K\\|b+\\|c,{}$ ${}{*}\\|d;$\\par
\\fi

\\M{40}See \\X38:Step 38.\\X.
\\Y\\B\\X34:Step 34.\\X;\\6
\\X2:Step 2.\\X;\\par
\\fi

\\inx
\\fin
\\con
[term]Writing the index...
[idx] is foo.idx
[idx]\\I\\\\{count19}, \\[19].
\\I\\\\{count23}, \\[23].
\\I\\\\{count27}, \\[27].
\\I\\\\{count3}, \\[3].
\\I\\\\{count39}, \\[39].
\\I\\\\{count7}, \\[7].
\\I\\|d, \\[3], \\[7], \\[19], \\[23], \\[27], \\[39].
\\I\\\\{limit1}, \\[1].
\\I\\\\{limit11}, \\[11].
\\I\\\\{limit21}, \\[21].
\\I\\\\{limit31}, \\[31].
\\I\\\\{node12}, \\[12].
\\I\\\\{node16}, \\[16].
\\I\\\\{node24}, \\[24].
\\I\\\\{node28}, \\[28].
\\I\\\\{node32}, \\[32].
\\I\\\\{node36}, \\[36].
\\I\\\\{node4}, \\[4].
\\I\\\\{node8}, \\[8].
\\I\\&{pair12}, \\[12].
\\I\\&{pair16}, \\[16].
\\I\\&{pair24}, \\[24].
\\I\\&{pair28}, \\[28].
\\I\\&{pair32}, \\[32].
\\I\\&{pair36}, \\[36].
\\I\\&{pair4}, \\[4].
\\I\\&{pair8}, \\[8].
\\I{part}, 1, 11, 21, 31.
\\I\\\\{table1}, 1.
\\I\\\\{table11}, 11.
\\I\\\\{table21}, 21.
\\I\\\\{table31}, 31.
\\I\\|x, \\[4], \\[8], \\[12], \\[16], \\[24], \\[28], \\[32], \\[36].
\\I\\|y, \\[4], \\[8], \\[12], \\[16], \\[24], \\[28], \\[32], \\[36].
[scn] is foo.scn
[scn]\\I\\X14:Step 14.\\X
\\Q15.
\\Us15\\ET20.
\\I\\X18:Step 18.\\X
\\Q20.
\\I\\X2:Step 2.\\X
\\Q5.
\\Us5, 10, 15, 20, 25, 30, 35\\ETs40.
\\I\\X22:Step 22.\\X
\\Q25.
\\Us25\\ET30.
\\I\\X26:Step 26.\\X
\\Q30.
\\I\\X34:Step 34.\\X
\\Q35.
\\Us35\\ET40.
\\I\\X38:Step 38.\\X
\\Q40.
\\I\\X6:Step 6.\\X
\\Q10.
[term]Done.
sections 40
scraps 584
productions 448
lines 280
(Did you see the warning message above?)
Clean";
